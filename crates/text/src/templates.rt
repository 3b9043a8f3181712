// Texts with numbers in them: each mark # in a template stands for a number.
ghost use Rattle.std.specs.Prelude.{◌≡◌, get_or};
ghost use Rattle.text.specs.Output.{Says};
ghost use Rattle.text.specs.Templates.{filled};

use crate::output::Output;
use crate::words::find;

// A number, 0 where there is none.
fn number_at(numbers: &[u64], i: usize) -> u64
    ensures { result ≡ get_or numbers.now i 0 }
{
    numbers.get(i).copied().unwrap_or(0)
}

impl Output<'_> {
    // Puts a template, with the numbers in place of its marks.
    pub fn say(&mut self, template: &[u8], numbers: &[u64])
        ensures { Says (filled template.now numbers.now) self.old self.new }
    {
        let len = template.len();
        let mut end = find(template, 0, b'#');
        self.put(&template[..end]);
        let mut i: usize = 0;
        while end < len {
            let start = end + 1;
            end = find(template, start, b'#');
            self.put_number(number_at(numbers, i));
            self.put(&template[start..end]);
            i += 1;
        }
    }
}
