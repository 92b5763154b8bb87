//! What shares and exits over two intermediaries are, by an example.

ghost use Rattle.further_laws.specs.Example.{ExampleHolds};

/// After seven payments what the four are worth is all that the ledgers hold; and by which calls A and the second
/// intermediary leave.
pub fn example_holds()
    ensures { ExampleHolds }
{}
