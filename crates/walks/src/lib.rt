// Laws for proofs by hand, of functions that the checker doesn't cover: a walk that follows the code, in the program logic. There is no
// code here. In proofs/:
//     Focus      a part taken out of what is owned, with the way back
//     Frame      a function's locals as one entry of the context: made, read, stored, and freed
//     Paths      fields behind a reference, by paths: copied to locals, their addresses taken, and stored
//     Slices     a slice that is lent on
//     Apart      several fields taken out of a struct's cell at once, and put back
//     Columns    columns of numbers lent to a call in their places, and taken back
//     Told       a struct of numbers behind a `&mut`, opened and closed
//     Plain      arguments that own nothing but facts
// Each law is over a list: a walk does not grow with the locals, the fields or the columns.
#![tactic(auto)]
