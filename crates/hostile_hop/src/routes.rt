//! The routes that the virtual channels of a script take.

ghost use Rattle.std.specs.Prelude.{◌≡◌};
ghost use Rattle.hostile_hop.specs.Routes.{plain, plainly};

use channel_values::{Label, NoMemory};
use network::Route;
use script_steps::Step;
use std::alloc::Global;

fn route_of(word: &str) -> Option<Route> {
    match word {
        "plain" => Some(Route::Plain),
        "ledger" => Some(Route::Ledger),
        "onward" => Some(Route::Onward),
        _ => None,
    }
}

/// The routes that the arguments are, if each is one.
pub(crate) fn routes_of(alloc: Global, words: &[Label]) -> Result<Option<Vec<Route>>, NoMemory> {
    let mut routes = Vec::new(alloc);
    for word in words {
        let Some(route) = route_of(word.as_str()) else {
            return Ok(None);
        };
        routes.push(route)?;
    }
    Ok(Some(routes))
}

/// Gives a step that opens a virtual channel the next route, if one is left; and how many routes were given then.
fn take_next(step: &mut Step, routes: &[Route], given: usize) -> usize
    ensures { plain step.new ≡ plain step.old }
{
    match (step, routes.get(given)) {
        (Step::OpenVirtual(keys), Some(next)) => {
            keys.route = *next;
            given.saturating_add(1)
        }
        _ => given,
    }
}

/// Gives the virtual channels these routes, in the order of the steps that open them. Where no route is left a step
/// keeps its own.
#[tactic(auto, using(crate::proofs::Alike::set_alike))]
pub(crate) fn take_routes(steps: &mut [Step], routes: &[Route])
    ensures { plainly steps.new ≡ plainly steps.old }
{
    let mut given = 0;
    for step in steps.iter_mut() {
        given = take_next(step, routes, given);
    }
}
