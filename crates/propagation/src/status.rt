ghost use Rattle.std.specs.Prelude.{◌≤◌};
ghost use Rattle.propagation.specs.Statuses.{HasCounts};

/// What a constraint does under an assignment.
#[derive(Clone, Copy)]
pub(crate) enum Status {
    /// More literals are true than may be, or fewer can become true than must.
    Conflicting,
    /// It does not conflict, is at a bound and has unset literals: all of them are to be true, or
    /// all of them false.
    Forcing(bool),
    /// It neither conflicts nor forces.
    Quiet,
}

/// The status of a constraint of so many literals, of which so many are true and so many false.
pub(crate) fn status_of(number: usize, lo: usize, hi: usize, trues: usize, falses: usize) -> Status
    requires { falses ≤ number }
    ensures { HasCounts number lo hi trues falses result }
{
    let possible = number - falses;
    if trues > hi {
        return Status::Conflicting;
    }
    if possible < lo {
        return Status::Conflicting;
    }
    if possible == trues {
        return Status::Quiet;
    }
    if trues == hi {
        return Status::Forcing(false);
    }
    if possible == lo {
        return Status::Forcing(true);
    }
    Status::Quiet
}
