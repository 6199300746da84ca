use std::ops::Mul;

// Affine transformation matrix.
#[derive(Clone, Copy, Drop)]
pub struct Transform {
    // 2x2 matrix.
    pub matrix: [f32; 4],
    // Translation.
    pub translation: [f32; 2],
}

impl Transform {
    ghost use Rattle.std.specs.Prelude.{◌≡◌};
    ghost use Rattle.math.specs.Finite.{all_finite};
    ghost use Rattle.math.specs.Product.{identity};

    // Identity transform.
    pub fn identity() -> Transform
        ensures { result ≡ identity }
    {
        Transform {
            matrix: [1.0, 0.0, 0.0, 1.0],
            translation: [0.0, 0.0],
        }
    }

    // Whether each of the six numbers is finite.
    pub fn is_finite(&self) -> bool
        ensures { result ≡ all_finite self.now }
    {
        self.matrix.iter().all(|x| x.is_finite()) && self.translation.iter().all(|x| x.is_finite())
    }
}

// `self` after `other`.
impl Mul for Transform {
    ghost use Rattle.std.specs.Prelude.{◌≡◌};
    ghost use Rattle.math.specs.Product.{times};

    type Output = Transform;

    ghost mul_gives = { λ s o r. r ≡ times s o };

    fn mul(self, other: Transform) -> Transform {
        Transform {
            matrix: [
                self.matrix[0] * other.matrix[0] + self.matrix[2] * other.matrix[1],
                self.matrix[1] * other.matrix[0] + self.matrix[3] * other.matrix[1],
                self.matrix[0] * other.matrix[2] + self.matrix[2] * other.matrix[3],
                self.matrix[1] * other.matrix[2] + self.matrix[3] * other.matrix[3],
            ],
            translation: [
                self.matrix[0] * other.translation[0]
                    + self.matrix[2] * other.translation[1]
                    + self.translation[0],
                self.matrix[1] * other.translation[0]
                    + self.matrix[3] * other.translation[1]
                    + self.translation[1],
            ],
        }
    }
}
