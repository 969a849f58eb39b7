/// A `u32` numbers what there is less of than this: rules, steps, and the hints of a step.
pub const NUMBER_LIMIT: usize = 4_294_967_296;
