// Heads: values that obey a rule and say what follows them.
ghost use Rattle.std.specs.Prelude.{◌≡◌, ◌≤◌, ◌+◌, ◌-◌, ◌^◌, ◌++◌, ◌⊎◌, length, take, drop, min, IfErr, OnOk};
ghost use Rattle.scroll_layouts.specs.Errors.{IsNot};
ghost use Rattle.scroll_layouts.specs.Formats.{headed, len, bytes, reads, refuses, agrees, differs};

use crate::pairs::put_behind;
use crate::{Part, ReadPart};
use scroll::{Endian, Error};
use std::marker::PhantomData;
use std::result::Result;

/// What a head `A` says: a rule that it obeys, such as that some of its fields are constants, and
/// the context of what follows it.
pub trait Head<A, E> {
    /// The context of what follows.
    type Next;

    // Holds of the heads that obey the rule.
    ghost holds: { Self → A → Type 0 };

    // Holds of the others, each with its error.
    ghost fails: { Self → A → E → Type 0 };

    // The context that a head says.
    ghost next: { Self → A → Self.Next };

    /// Returns the error of a head that doesn't obey the rule.
    fn obey(&self, head: &A) -> Result<(), E>
        ensures holds { OnOk result (holds self.now head.now) }
        ensures fails { IfErr result (fails self.now head.now) };

    /// Returns the context of what follows a head.
    fn next(&self, head: &A) -> Self::Next
        ensures { result ≡ next self.now head.now };
}

/// The context of a head and what follows it in the context `D`: the head's own context, and what
/// the head says.
#[derive(Drop)]
pub struct Headed<C, D, H>(pub C, pub H, pub PhantomData<D>);

/// A head, and what follows it in the context that the head says. The errors of the head come
/// first, then that of its rule, and then those of what follows.
impl<E, C, D: Drop, A: Part<C, E>, H: Head<A, E, Next = D>, B: Part<D, E>> Part<Headed<C, D, H>, E>
    for (A, B) {
    ghost format = { λ c.
        headed (A.format c.0) (H.holds c.1) (H.fails c.1) (H.next c.1) B.format };

    fn check(&self, order: Endian, ctx: &Headed<C, D, H>) -> Result<(), E> {
        self.0.check(order, &ctx.0)?;
        ctx.1.obey(&self.0)?;
        self.1.check(order, &ctx.1.next(&self.0))
    }

    fn size(&self, order: Endian, ctx: &Headed<C, D, H>) -> usize {
        self.0
            .size(order, &ctx.0)
            .saturating_add(self.1.size(order, &ctx.1.next(&self.0)))
    }

    #[inline(always)]
    fn put(&self, dst: &mut [u8], order: Endian, ctx: &Headed<C, D, H>) {
        let first = self.0.size(order, &ctx.0);
        self.0.put(dst, order, &ctx.0);
        put_behind::<E, D, B>(&self.1, dst, first, order, &ctx.1.next(&self.0))
    }
}

impl<
    'a,
    E: Drop,
    C,
    D: Drop,
    A: ReadPart<'a, C, E>,
    H: Head<A, E, Next = D>,
    B: ReadPart<'a, D, E>,
> ReadPart<'a, Headed<C, D, H>, E> for (A, B) {
    ghost format = { λ c.
        headed (A.format c.0) (H.holds c.1) (H.fails c.1) (H.next c.1) B.format };

    #[inline(always)]
    fn read_at(
        from: &'a [u8],
        offset: usize,
        order: Endian,
        ctx: &Headed<C, D, H>,
    ) -> Result<((A, B), usize), E> {
        let (head, next) = A::read_at(from, offset, order, &ctx.0)?;
        ctx.1.obey(&head)?;
        let (rest, end) = B::read_at(from, next, order, &ctx.1.next(&head))?;
        Ok(((head, rest), end))
    }

    #[tactic(auto, using(crate::specs::lemmas::EndLemmas::part_ends))]
    #[inline(always)]
    fn end_at(
        from: &'a [u8],
        offset: usize,
        order: Endian,
        ctx: &Headed<C, D, H>,
    ) -> Option<usize> {
        let Ok((first, next)) = A::read_at(from, offset, order, &ctx.0) else {
            return None;
        };
        match ctx.1.obey(&first) {
            Ok(()) => B::end_at(from, next, order, &ctx.1.next(&first)),
            Err(_error) => None,
        }
    }
}

/// Checks that a number is a constant. Another one returns [`Error::BadInput`] with the number as
/// its size, and the message `text`.
///
/// ```rust
/// is(7, 7, "the kind is not 7")?;
/// let other = is(8, 7, "the kind is not 7");
/// assert!(rt; matches!(&other, Err(Error::BadInput { size: 8, msg: "the kind is not 7" })));
/// ```
#[inline(always)]
pub fn is(number: usize, constant: usize, text: &'static str) -> Result<(), Error>
    ensures is { OnOk result (number ≡ constant) }
    ensures other { IfErr result (IsNot constant number text.now) }
{
    if number != constant {
        return Err(Error::BadInput {
            size: number,
            msg: text,
        });
    }
    Ok(())
}
