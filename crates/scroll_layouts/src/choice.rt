// One of two values, as a tag says.

/// One of two values. One of more is a `Choice` whose second value is a `Choice`.
///
/// ```rust
/// let bytes: [u8; 2] = [1, 2];
/// let tag = Choose(false, (), ());
/// let read =
///     read_whole::<Choose<(), ()>, Error, Choice<Run<u8>, Run<u16>>>(&bytes, BE, &tag)?;
/// assert!(rt; matches!(&read, (Choice::Second(Run(258)), 2)));
/// ```
#[derive(Drop)]
pub enum Choice<A, B> {
    First(A),
    Second(B),
}

/// The context of a [`Choice`]: whether it is the first value, and the context of each.
#[derive(Drop)]
pub struct Choose<C, D>(pub bool, pub C, pub D);
