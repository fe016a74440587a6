// Two to four types of a fixed size, one after another. They are the parts of a struct:
// `(u16, u16, u32)` for three fields, and `((u16, u16, u32), (u8, u8))` for five.
ghost use Rattle.std.specs.Prelude.{◌≡◌, ◌≤◌, ◌+◌, ◌++◌, length, take, drop, refl};
ghost use Rattle.std.proofs.Common.{arith};
ghost use Rattle.scroll.specs.lemmas.FixedLemmas.{both-len, both-back, both-one, same-first, same-second, record-one, both-kept};

use crate::ctx::fixed::{Fixed, RoundTrip};
use crate::endian::Endian;

impl<A: Fixed, B: Fixed> Fixed for (A, B) {
    ghost width = { A.width + B.width };

    ghost bytes = { λ order x. A.bytes order x.0 ++ B.bytes order x.1 };

    ghost makes = { λ order s at x. A.makes order s at x.0 × B.makes order s (at + A.width) x.1 };

    ghost fits = { λ x. A.fits x.0 × B.fits x.1 };

    ghost bytes_len = { λ order x.
        both-len (A.bytes order x.0) (B.bytes order x.1)
        (A.bytes_len order x.0) (B.bytes_len order x.1) };

    ghost back = { λ order x prefix rest h.
        both-back A.width (A.bytes order x.0) (B.bytes order x.1) prefix rest
        (A.bytes_len order x.0)
        (λ s at. A.makes order s at x.0) (λ s at. B.makes order s at x.1)
        (λ f t. A.back order x.0 f t h.0) (λ f t. B.back order x.1 f t h.1) };

    ghost made_fits = { λ order s at x all h.
        (A.made_fits order s at x.0 all h.0, B.made_fits order s (at + A.width) x.1 all h.1) };

    ghost one = { λ order s at. both-one (A.one order s at) (B.one order s (at + A.width)) };

    ghost local = { λ order s at t to x same h. (
      A.local order s at t to x.0 (same-first A.width B.width s at t to same) h.0,
      B.local order s (at + A.width) t (to + A.width) x.1
          (same-second A.width B.width s at t to same) h.1,
    ) };

    fn width() -> usize {
        A::width() + B::width()
    }

    #[inline(always)]
    fn read_at(from: &[u8], offset: usize, order: Endian) -> (A, B) {
        (
            A::read_at(from, offset, order),
            B::read_at(from, offset + A::width(), order),
        )
    }

    #[inline(always)]
    fn write_prefix(self, dst: &mut [u8], order: Endian) {
        self.0.write_prefix(dst, order);
        write_behind(self.1, dst, A::width(), order)
    }
}

// Writes a value after the `offset` bytes of those before it.
#[inline(always)]
pub(super) fn write_behind<B: Fixed>(value: B, dst: &mut [u8], offset: usize, order: Endian)
    requires { offset + B.width ≤ length dst.old }
    ensures before { take offset dst.new ≡ take offset dst.old }
    ensures after { drop offset dst.new
        ≡ B.bytes order value ++ drop B.width (drop offset dst.old) }
{
    value.write_prefix(&mut dst[offset..], order)
}

impl<A: Fixed, B: Fixed, C: Fixed> Fixed for (A, B, C) {
    ghost width = { A.width + (B.width + C.width) };

    ghost bytes = { λ order x. A.bytes order x.0 ++ (B.bytes order x.1 ++ C.bytes order x.2) };

    ghost makes = { λ order s at x.
        A.makes order s at x.0
        × (B.makes order s (at + A.width) x.1 × C.makes order s (at + A.width + B.width) x.2) };

    ghost fits = { λ x. A.fits x.0 × (B.fits x.1 × C.fits x.2) };

    ghost bytes_len = { λ order x.
        both-len (A.bytes order x.0) (B.bytes order x.1 ++ C.bytes order x.2)
        (A.bytes_len order x.0)
        (both-len (B.bytes order x.1) (C.bytes order x.2)
        (B.bytes_len order x.1) (C.bytes_len order x.2)) };

    ghost back = { λ order x prefix rest h.
        both-back A.width (A.bytes order x.0) (B.bytes order x.1 ++ C.bytes order x.2) prefix rest
        (A.bytes_len order x.0) (λ s at. A.makes order s at x.0)
        (λ s at. B.makes order s at x.1 × C.makes order s (at + B.width) x.2)
        (λ f t. A.back order x.0 f t h.0)
        (λ f t. both-back B.width (B.bytes order x.1) (C.bytes order x.2) f t
        (B.bytes_len order x.1) (λ s at. B.makes order s at x.1) (λ s at. C.makes order s at x.2)
        (λ f t. B.back order x.1 f t h.1.0) (λ f t. C.back order x.2 f t h.1.1)) };

    ghost made_fits = { λ order s at x all h. (
      A.made_fits order s at x.0 all h.0,
      (
        B.made_fits order s (at + A.width) x.1 all h.1.0,
        C.made_fits order s (at + A.width + B.width) x.2 all h.1.1,
      ),
    ) };

    ghost one = { λ order s at.
        record-one (λ x. (x.0, (x.1, x.2))) (λ p. (p.0, p.1.0, p.1.1)) (λ x. refl) (λ p. refl)
        (both-one (A.one order s at)
        (both-one (B.one order s (at + A.width)) (C.one order s (at + A.width + B.width))))
        (λ x h. h) (λ x h. h) };

    ghost local = { λ order s at t to x same h.
        let rest = same-second A.width (B.width + C.width) s at t to same in (
          A.local order s at t to x.0 (same-first A.width (B.width + C.width) s at t to same) h.0,
          (
            B.local order s (at + A.width) t (to + A.width) x.1
                (same-first B.width C.width s (at + A.width) t (to + A.width) rest) h.1.0,
            C.local order s (at + A.width + B.width) t (to + A.width + B.width) x.2
                (same-second B.width C.width s (at + A.width) t (to + A.width) rest) h.1.1,
          ),
        ) };

    fn width() -> usize {
        A::width() + (B::width() + C::width())
    }

    #[inline(always)]
    fn read_at(from: &[u8], offset: usize, order: Endian) -> (A, B, C) {
        let (second, third) = (offset + A::width(), offset + A::width() + B::width());
        (
            A::read_at(from, offset, order),
            B::read_at(from, second, order),
            C::read_at(from, third, order),
        )
    }

    #[inline(always)]
    fn write_prefix(self, dst: &mut [u8], order: Endian) {
        (self.0, (self.1, self.2)).write_prefix(dst, order)
    }
}

impl<A: Fixed, B: Fixed, C: Fixed, D: Fixed> Fixed for (A, B, C, D) {
    ghost width = { A.width + (B.width + (C.width + D.width)) };

    ghost bytes = { λ order x.
        A.bytes order x.0 ++ (B.bytes order x.1 ++ (C.bytes order x.2 ++ D.bytes order x.3)) };

    ghost makes = { λ order s at x.
        A.makes order s at x.0
        × (B.makes order s (at + A.width) x.1
        × (C.makes order s (at + A.width + B.width) x.2
        × D.makes order s (at + A.width + B.width + C.width) x.3)) };

    ghost fits = { λ x. A.fits x.0 × (B.fits x.1 × (C.fits x.2 × D.fits x.3)) };

    ghost bytes_len = { λ order x.
        both-len (A.bytes order x.0) (B.bytes order x.1 ++ (C.bytes order x.2 ++ D.bytes order x.3))
        (A.bytes_len order x.0)
        (both-len (B.bytes order x.1) (C.bytes order x.2 ++ D.bytes order x.3)
        (B.bytes_len order x.1)
        (both-len (C.bytes order x.2) (D.bytes order x.3)
        (C.bytes_len order x.2) (D.bytes_len order x.3))) };

    ghost back = { λ order x prefix rest h.
        both-back A.width (A.bytes order x.0)
        (B.bytes order x.1 ++ (C.bytes order x.2 ++ D.bytes order x.3))
        prefix rest (A.bytes_len order x.0) (λ s at. A.makes order s at x.0)
        (λ s at. B.makes order s at x.1
        × (C.makes order s (at + B.width) x.2 × D.makes order s (at + B.width + C.width) x.3))
        (λ f t. A.back order x.0 f t h.0)
        (λ f t. both-back B.width (B.bytes order x.1) (C.bytes order x.2 ++ D.bytes order x.3) f t
        (B.bytes_len order x.1) (λ s at. B.makes order s at x.1)
        (λ s at. C.makes order s at x.2 × D.makes order s (at + C.width) x.3)
        (λ f t. B.back order x.1 f t h.1.0)
        (λ f t. both-back C.width (C.bytes order x.2) (D.bytes order x.3) f t
        (C.bytes_len order x.2) (λ s at. C.makes order s at x.2) (λ s at. D.makes order s at x.3)
        (λ f t. C.back order x.2 f t h.1.1.0) (λ f t. D.back order x.3 f t h.1.1.1))) };

    ghost made_fits = { λ order s at x all h. (
      A.made_fits order s at x.0 all h.0,
      (
        B.made_fits order s (at + A.width) x.1 all h.1.0,
        (
          C.made_fits order s (at + A.width + B.width) x.2 all h.1.1.0,
          D.made_fits order s (at + A.width + B.width + C.width) x.3 all h.1.1.1,
        ),
      ),
    ) };

    ghost one = { λ order s at.
        record-one (λ x. (x.0, (x.1, (x.2, x.3)))) (λ p. (p.0, p.1.0, p.1.1.0, p.1.1.1))
        (λ x. refl) (λ p. refl)
        (both-one (A.one order s at)
        (both-one (B.one order s (at + A.width))
        (both-one (C.one order s (at + A.width + B.width))
        (D.one order s (at + A.width + B.width + C.width)))))
        (λ x h. h) (λ x h. h) };

    ghost local = { λ order s at t to x same h.
        let rest = same-second A.width (B.width + (C.width + D.width)) s at t to same in
        let last =
        same-second B.width (C.width + D.width) s (at + A.width) t (to + A.width) rest in (
          A.local order s at t to x.0
              (same-first A.width (B.width + (C.width + D.width)) s at t to same) h.0,
          (
            B.local order s (at + A.width) t (to + A.width) x.1
                (same-first B.width (C.width + D.width) s (at + A.width) t (to + A.width) rest)
                h.1.0,
            (
              C.local order s (at + A.width + B.width) t (to + A.width + B.width) x.2
                  (same-first C.width D.width s (at + A.width + B.width) t
                  (to + A.width + B.width) last) h.1.1.0,
              D.local order s (at + A.width + B.width + C.width) t
                  (to + A.width + B.width + C.width) x.3
                  (same-second C.width D.width s (at + A.width + B.width) t
                  (to + A.width + B.width) last) h.1.1.1,
            ),
          ),
        ) };

    fn width() -> usize {
        A::width() + (B::width() + (C::width() + D::width()))
    }

    #[inline(always)]
    fn read_at(from: &[u8], offset: usize, order: Endian) -> (A, B, C, D) {
        let second = offset + A::width();
        let third = second + B::width();
        (
            A::read_at(from, offset, order),
            B::read_at(from, second, order),
            C::read_at(from, third, order),
            D::read_at(from, third + C::width(), order),
        )
    }

    #[inline(always)]
    fn write_prefix(self, dst: &mut [u8], order: Endian) {
        (self.0, (self.1, (self.2, self.3))).write_prefix(dst, order)
    }
}

impl<A: RoundTrip, B: RoundTrip> RoundTrip for (A, B) {
    ghost kept = { λ order s at x all room h.
        both-kept A.width B.width s at
        (A.kept order s at x.0 all (omega (arith, room)) h.0)
        (B.kept order s (at + A.width) x.1 all (omega (arith, room)) h.1) };
}

impl<A: RoundTrip, B: RoundTrip, C: RoundTrip> RoundTrip for (A, B, C) {
    ghost kept = { λ order s at x all room h.
        both-kept A.width (B.width + C.width) s at
        (A.kept order s at x.0 all (omega (arith, room)) h.0)
        (both-kept B.width C.width s (at + A.width)
        (B.kept order s (at + A.width) x.1 all (omega (arith, room)) h.1.0)
        (C.kept order s (at + A.width + B.width) x.2 all (omega (arith, room)) h.1.1)) };
}

impl<A: RoundTrip, B: RoundTrip, C: RoundTrip, D: RoundTrip> RoundTrip for (A, B, C, D) {
    ghost kept = { λ order s at x all room h.
        both-kept A.width (B.width + (C.width + D.width)) s at
        (A.kept order s at x.0 all (omega (arith, room)) h.0)
        (both-kept B.width (C.width + D.width) s (at + A.width)
        (B.kept order s (at + A.width) x.1 all (omega (arith, room)) h.1.0)
        (both-kept C.width D.width s (at + A.width + B.width)
        (C.kept order s (at + A.width + B.width) x.2 all (omega (arith, room)) h.1.1.0)
        (D.kept order s (at + A.width + B.width + C.width) x.3 all (omega (arith, room))
        h.1.1.1))) };
}
