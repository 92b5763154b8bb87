//! How a channel stands at a time.

ghost use Rattle.std.specs.Prelude.{◌≡◌};
ghost use Rattle.call_history.specs.Mode.{mode_at};

/// How a channel stands: whether a challenge is open on it, or has run out.
#[derive(Clone, Copy, Debug, PartialEq, Eq)]
pub enum Standing {
    /// There is no deadline.
    Open,
    /// The deadline is to come.
    Challenged,
    /// The deadline has come.
    Final,
}

/// How a channel with this deadline stands at the time `now`.
pub fn mode(deadline: Option<u64>, now: u64) -> Standing
    ensures { result ≡ mode_at deadline now }
{
    match deadline {
        None => Standing::Open,
        Some(deadline) => {
            if deadline <= now {
                Standing::Final
            } else {
                Standing::Challenged
            }
        }
    }
}

#[cfg(test)]
mod tests {
    use crate::standing::{Standing, mode};

    #[test]
    fn a_deadline_has_come_at_its_own_time(rt: HostRuntime) {
        assert_eq!(rt; mode(None, 5), Standing::Open);
        assert_eq!(rt; mode(Some(6), 5), Standing::Challenged);
        assert_eq!(rt; mode(Some(5), 5), Standing::Final);
        assert_eq!(rt; mode(Some(4), 5), Standing::Final);
        assert_eq!(rt; mode(Some(0), 0), Standing::Final);
    }
}
