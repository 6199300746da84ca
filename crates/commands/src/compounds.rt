use crate::values::{Number, Value};
use draw::{Color, ColorStop};
use job_text::{Flaw, Parts, cut};
use math::Transform;
use records::{Glyph, Style};
use std::alloc::Global;

// The values that are others with a colon between.

impl<T: Value + Default + Copy, const N: usize> Value for [T; N] {
    fn read(heap: Global, text: &[u8]) -> Result<[T; N], Flaw> {
        let mut parts = Parts::new(b':', text);
        let mut values = [T::default(); N];
        for value in values.iter_mut() {
            *value = T::read(heap, parts.next().ok_or(Flaw::Form)?)?;
        }
        if parts.next().is_some() {
            return Err(Flaw::Form);
        }
        Ok(values)
    }
}

impl Value for Transform {
    fn read(heap: Global, text: &[u8]) -> Result<Transform, Flaw> {
        let [a, b, c, d, e, f]: [f32; 6] = Value::read(heap, text)?;
        Ok(Transform {
            matrix: [a, b, c, d],
            translation: [e, f],
        })
    }
}

impl Value for ColorStop {
    fn read(heap: Global, text: &[u8]) -> Result<ColorStop, Flaw> {
        let [offset, r, g, b, a]: [f32; 5] = Value::read(heap, text)?;
        Ok(ColorStop {
            offset,
            color: Color { r, g, b, a },
        })
    }
}

impl Value for Style {
    fn read(heap: Global, text: &[u8]) -> Result<Style, Flaw> {
        let [flags_and_miter_limit, line_width]: [u32; 2] = Value::read(heap, text)?;
        Ok(Style {
            flags_and_miter_limit,
            line_width,
        })
    }
}

impl Value for Glyph {
    fn read(heap: Global, text: &[u8]) -> Result<Glyph, Flaw> {
        let (id, place) = cut(b':', text);
        let place = place.ok_or(Flaw::Form)?;
        let Number(id) = Value::read(heap, id)?;
        let [x, y]: [f32; 2] = Value::read(heap, place)?;
        Ok(Glyph { id, x, y })
    }
}
