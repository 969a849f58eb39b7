use count_core::{CountRule, Lit, NoMemory};
use std::alloc::Global;

/// The slack of each rule where a run began: how many more of its literals could be false before too
/// few could be true. Nothing rests on it.
#[derive(Drop)]
pub(crate) struct Slacks {
    slacks: Vec<usize>,
    is_measured: bool,
}

impl Slacks {
    /// Not measured, for so many rules.
    pub(crate) fn new(alloc: Global, rules: usize) -> Result<Slacks, NoMemory> {
        let slacks: Vec<usize> = vec![in alloc; 0; rules]?;
        Ok(Slacks {
            slacks,
            is_measured: false,
        })
    }

    /// From now on they count as not measured.
    pub(crate) fn forget(&mut self) {
        self.is_measured = false;
    }

    /// Measures them under these values, where they are not measured.
    pub(crate) fn measure(&mut self, values: &[Option<bool>], rules: &[CountRule]) {
        if self.is_measured {
            return;
        }
        self.is_measured = true;
        for place in 0..rules.len().min(self.slacks.len()) {
            self.slacks[place] = slack_of(values, &rules[place]);
        }
    }

    /// The slacks, by rule.
    pub(crate) fn as_slice(&self) -> &[usize] {
        self.slacks.as_slice()
    }
}

fn slack_of(values: &[Option<bool>], rule: &CountRule) -> usize {
    let lits = rule.lits.as_slice();
    let possible = lits.iter().filter(|lit| !is_false(values, **lit)).count();
    possible.saturating_sub(rule.lo as usize)
}

/// Whether the literal is set false.
fn is_false(values: &[Option<bool>], lit: Lit) -> bool {
    let place = lit.atom.0 as usize;
    place < values.len() && values[place] == Some(!lit.positive)
}
