// Tuples: fields, one after another.
ghost use Rattle.std.proofs.Common.{ap};
ghost use Rattle.std.specs.Prelude.{◌≡◌, ◌≤◌, ◌+◌, ◌-◌, ◌^◌, ◌++◌, length, take, drop, min};
ghost use Rattle.scroll_layouts.specs.Layouts.{both, shaped, width, laid_bytes, makes, fits};

use crate::{FixedLayout, SameLayout};
use scroll::Endian;

impl<A: FixedLayout, B: FixedLayout> FixedLayout for (A, B) {
    ghost layout = { both A.layout B.layout };

    fn capped() -> usize {
        A::capped().saturating_add(B::capped())
    }

    fn fit(&self) {
        self.0.fit();
        self.1.fit();
    }

    #[inline(always)]
    fn load(from: &[u8], offset: usize, order: Endian) -> (A, B) {
        let first = A::load(from, offset, order);
        let second = B::load(from, offset + A::capped(), order);
        (first, second)
    }

    #[inline(always)]
    fn store(&self, dst: &mut [u8], order: Endian) {
        store_two(&self.0, &self.1, dst, order)
    }
}

impl<A: FixedLayout, B: FixedLayout, C: FixedLayout> FixedLayout for (A, B, C) {
    ghost layout = { shaped (both A.layout (both B.layout C.layout))
        (λ x. (x.0, (x.1, x.2))) (λ x y. ap (λ p. (p.0, p.1.0, p.1.1))) };

    fn capped() -> usize {
        A::capped().saturating_add(B::capped().saturating_add(C::capped()))
    }

    fn fit(&self) {
        self.0.fit();
        self.1.fit();
        self.2.fit();
    }

    #[inline(always)]
    fn load(from: &[u8], offset: usize, order: Endian) -> (A, B, C) {
        let first = A::load(from, offset, order);
        let after_first = offset + A::capped();
        let second = B::load(from, after_first, order);
        let third = C::load(from, after_first + B::capped(), order);
        (first, second, third)
    }

    #[inline(always)]
    fn store(&self, dst: &mut [u8], order: Endian) {
        store_three(&self.0, &self.1, &self.2, dst, order)
    }
}

impl<A: FixedLayout, B: FixedLayout, C: FixedLayout, D: FixedLayout> FixedLayout for (A, B, C, D) {
    ghost layout = { shaped (both A.layout (both B.layout (both C.layout D.layout)))
        (λ x. (x.0, (x.1, (x.2, x.3)))) (λ x y. ap (λ p. (p.0, p.1.0, p.1.1.0, p.1.1.1))) };

    fn capped() -> usize {
        A::capped().saturating_add(B::capped().saturating_add(C::capped().saturating_add(
            D::capped(),
        )))
    }

    fn fit(&self) {
        self.0.fit();
        self.1.fit();
        self.2.fit();
        self.3.fit();
    }

    #[inline(always)]
    fn load(from: &[u8], offset: usize, order: Endian) -> (A, B, C, D) {
        let first = A::load(from, offset, order);
        let after_first = offset + A::capped();
        let second = B::load(from, after_first, order);
        let after_second = after_first + B::capped();
        let third = C::load(from, after_second, order);
        let fourth = D::load(from, after_second + C::capped(), order);
        (first, second, third, fourth)
    }

    #[inline(always)]
    fn store(&self, dst: &mut [u8], order: Endian) {
        self.0.store(dst, order);
        three_behind(&self.1, &self.2, &self.3, dst, A::capped(), order)
    }
}

// Writes two values, one after the other.
#[inline(always)]
fn store_two<A: FixedLayout, B: FixedLayout>(first: &A, second: &B, dst: &mut [u8], order: Endian)
    requires { width A.layout + width B.layout ≤ length dst.old }
    ensures { dst.new ≡ (laid_bytes A.layout order first.now
        ++ laid_bytes B.layout order second.now)
        ++ drop (width A.layout + width B.layout) dst.old }
{
    first.store(dst, order);
    one_behind(second, dst, A::capped(), order)
}

// Writes three values, one after the other.
#[inline(always)]
fn store_three<A: FixedLayout, B: FixedLayout, C: FixedLayout>(
    first: &A,
    second: &B,
    third: &C,
    dst: &mut [u8],
    order: Endian,
)
    requires { width A.layout + (width B.layout + width C.layout) ≤ length dst.old }
    ensures { dst.new ≡ (laid_bytes A.layout order first.now
        ++ (laid_bytes B.layout order second.now ++ laid_bytes C.layout order third.now))
        ++ drop (width A.layout + (width B.layout + width C.layout)) dst.old }
{
    first.store(dst, order);
    two_behind(second, third, dst, A::capped(), order)
}

// Writes values behind the `offset` bytes before them.
#[inline(always)]
fn one_behind<B: FixedLayout>(second: &B, dst: &mut [u8], offset: usize, order: Endian)
    requires { offset + width B.layout ≤ length dst.old }
    ensures before { take offset dst.new ≡ take offset dst.old }
    ensures after { drop offset dst.new
        ≡ laid_bytes B.layout order second.now ++ drop (width B.layout) (drop offset dst.old) }
{
    second.store(&mut dst[offset..], order)
}

#[inline(always)]
fn two_behind<B: FixedLayout, C: FixedLayout>(
    second: &B,
    third: &C,
    dst: &mut [u8],
    offset: usize,
    order: Endian,
)
    requires { offset + (width B.layout + width C.layout) ≤ length dst.old }
    ensures before { take offset dst.new ≡ take offset dst.old }
    ensures after { drop offset dst.new ≡ (laid_bytes B.layout order second.now
        ++ laid_bytes C.layout order third.now)
        ++ drop (width B.layout + width C.layout) (drop offset dst.old) }
{
    store_two(second, third, &mut dst[offset..], order)
}

#[inline(always)]
fn three_behind<B: FixedLayout, C: FixedLayout, D: FixedLayout>(
    second: &B,
    third: &C,
    fourth: &D,
    dst: &mut [u8],
    offset: usize,
    order: Endian,
)
    requires { offset + (width B.layout + (width C.layout + width D.layout)) ≤ length dst.old }
    ensures before { take offset dst.new ≡ take offset dst.old }
    ensures after { drop offset dst.new ≡ (laid_bytes B.layout order second.now
        ++ (laid_bytes C.layout order third.now ++ laid_bytes D.layout order fourth.now))
        ++ drop (width B.layout + (width C.layout + width D.layout)) (drop offset dst.old) }
{
    store_three(second, third, fourth, &mut dst[offset..], order)
}

impl<A: SameLayout, B: SameLayout> SameLayout for (A, B) {
    fn same() {
        A::same();
        B::same();
    }
}

impl<A: SameLayout, B: SameLayout, C: SameLayout> SameLayout for (A, B, C) {
    fn same() {
        A::same();
        B::same();
        C::same();
    }
}

impl<A: SameLayout, B: SameLayout, C: SameLayout, D: SameLayout> SameLayout for (A, B, C, D) {
    fn same() {
        A::same();
        B::same();
        C::same();
        D::same();
    }
}
