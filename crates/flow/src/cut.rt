// What a cut says of flows, for a caller's proofs.
ghost use Rattle.std.specs.Prelude.{◌≡◌};
ghost use Rattle.flow.specs.Cut.{AtMost, Fills, Dense, Strict};

// How many laws stand here: no flow is larger than a cut, dense tasks fill the dense hours, they have more supply than those
// hours bear if not all is shipped, and tasks that are not dense have less.
// The count is what an edit of the code can make wrong; a caller takes the laws from the contract.
pub fn laws() -> u8
    ensures bound { AtMost }
    ensures full { Fills }
    ensures over { Dense }
    ensures under { Strict }
    ensures count { result ≡ 4 }
{
    4
}
