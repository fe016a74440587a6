// The sizes of byte slices, byte arrays and vectors, and of strings, which are those of their UTF-8
// bytes. The context plays no part.
ghost use Rattle.std.specs.Prelude.{length};
ghost use Rattle.std.specs.String.{string_bytes};

use crate::ctx::MeasureWith;

impl<'s, Ctx> MeasureWith<Ctx> for &'s [u8] {
    ghost measure = { λ _ slice. length slice.now };

    fn measure_with(&self, _ctx: &Ctx) -> usize {
        self.len()
    }
}

impl<Ctx, const N: usize> MeasureWith<Ctx> for [u8; N] {
    ghost measure = { λ _ bytes. N };

    fn measure_with(&self, _ctx: &Ctx) -> usize {
        N
    }
}

impl<Ctx> MeasureWith<Ctx> for Vec<u8> {
    ghost measure = { λ _ bytes. length bytes.items };

    fn measure_with(&self, _ctx: &Ctx) -> usize {
        self.as_slice().len()
    }
}

impl<'t, Ctx> MeasureWith<Ctx> for &'t str {
    ghost measure = { λ _ text. length text.now };

    fn measure_with(&self, _ctx: &Ctx) -> usize {
        self.as_bytes().len()
    }
}

impl<Ctx> MeasureWith<Ctx> for String {
    ghost measure = { λ _ text. length (string_bytes text) };

    fn measure_with(&self, _ctx: &Ctx) -> usize {
        self.as_str().len()
    }
}
