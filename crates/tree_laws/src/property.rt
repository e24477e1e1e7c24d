/// A property of values of `A`, which laws name by a type.
pub trait Property<A> {
    ghost holds: { A → Type 0 };
}
