ghost use Rattle.std.specs.Prelude.{◌≡◌, ℕ, ◌+◌, ◌≤◌, List, length, refl};
ghost use Rattle.byte_writers.specs.Bytes.{byte, word_bytes, float_bytes, transform_bytes, style_bytes};
ghost use Rattle.byte_writers.specs.Wrote.{Wrote};

use crate::writer::Writer;
use math::Transform;
use records::Style;

// What a stream holds as bytes, the lowest first.
pub trait Entry: Copy {
    ghost bytes: { Self → List ℕ };

    // How many bytes an entry has.
    ghost wide: { ℕ };

    // Writes the bytes and touches nothing else.
    fn put(&self, writer: &mut Writer<'_>)
        requires { writer.old.at + wide ≤ length writer.old.out.now }
        ensures { Wrote writer.old (bytes self.now) writer.new };

    ghost wides: { (x : Self) → length (bytes x) ≡ wide };
}

impl Entry for u8 {
    ghost bytes = { byte };

    ghost wide = { 1 };

    ghost wides = { λ _. refl };

    fn put(&self, writer: &mut Writer<'_>) {
        writer.put_bytes(&[*self]);
    }
}

impl Entry for u32 {
    ghost bytes = { word_bytes };

    ghost wide = { 4 };

    ghost wides = { λ _. refl };

    fn put(&self, writer: &mut Writer<'_>) {
        writer.put_bytes(&self.to_le_bytes());
    }
}

impl Entry for f32 {
    ghost bytes = { float_bytes };

    ghost wide = { 4 };

    ghost wides = { λ _. refl };

    fn put(&self, writer: &mut Writer<'_>) {
        std::num::f32_to_bits_with_nan(*self).put(writer);
    }
}

impl Entry for Transform {
    ghost bytes = { transform_bytes };

    ghost wide = { 24 };

    ghost wides = { λ _. refl };

    fn put(&self, writer: &mut Writer<'_>) {
        let [a, b, c, d] = self.matrix;
        let [x, y] = self.translation;
        writer.put_all(&[a, b, c, d, x, y]);
    }
}

impl Entry for Style {
    ghost bytes = { style_bytes };

    ghost wide = { 8 };

    ghost wides = { λ _. refl };

    fn put(&self, writer: &mut Writer<'_>) {
        writer.put_all(&[self.flags_and_miter_limit, self.line_width]);
    }
}
