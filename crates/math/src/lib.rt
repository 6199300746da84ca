// Affine transforms: four numbers of matrix and two of translation, and their product.
// Each operation is rounded once, to binary32, in the order in which it is written.
#![tactic(auto)]

mod transform;

pub use transform::Transform;
