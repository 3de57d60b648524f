// Answers of one number. A preparation and an update say a summary, the question says yes or no, and a route says its changes.
// Each is the number that an accepted call says, or a refusal, and so one function tells them all.

ghost use Rattle.std.specs.Prelude.{◌≡◌};
ghost use Rattle.finder_c.specs.Singles.{of_summary, of_occurrence, of_routed};

use score::Refusal;
use summing::Summary;

// A preparation says its summary, and an update that of the sets as they then are.
pub fn of_summary(s: Result<Summary, Refusal>) -> Result<u16, Refusal>
    ensures { result ≡ of_summary s }
{
    s.map(|s| s.0)
}

// The question says 1 for yes and 0 for no.
pub fn of_occurrence(o: Result<bool, Refusal>) -> Result<u16, Refusal>
    ensures { result ≡ of_occurrence o }
{
    o.map(|yes| if yes { 1 } else { 0 })
}

// A route says how often its track changes.
pub fn of_routed(a: Result<u8, Refusal>) -> Result<u16, Refusal>
    ensures { result ≡ of_routed a }
{
    a.map(u16::from)
}
