//! The last of the states in a row.

ghost use Rattle.std.specs.Prelude.{◌≡◌};
ghost use Rattle.std.specs.Option.{option_map};
ghost use Rattle.channel_values.specs.Rows.{last_of};
ghost use Rattle.channel_values.specs.Rules.{newest};

use channel_values::State;

fn last_of<'a>(first: &'a State, rest: &'a [State]) -> &'a State
    ensures { result.now ≡ last_of first.now rest.now }
{
    match rest {
        [] => first,
        [next, rest @ ..] => last_of(next, rest),
    }
}

/// The last state of a row of states, if there is one.
pub fn newest(states: &[State]) -> Option<&State>
    ensures { option_map (λ m. m.now) result ≡ newest states.now }
{
    match states {
        [] => None,
        [first, rest @ ..] => Some(last_of(first, rest)),
    }
}
