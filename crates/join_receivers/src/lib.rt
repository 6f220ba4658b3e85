// Whom a group's 02 names, held against the name asked for: byte by byte, so leading zeros count.

#![tactic(auto)]

ghost use Rattle.std.specs.Prelude.{◌≡◌};
ghost use Rattle.rules.specs.Lines.{lines_of};
ghost use Rattle.join_receivers.specs.NamedReceiver.{named};

use base_codes::Code;
use find_field::Sought;

// The 02 in these bytes names this receiver.
pub fn is_for(name: &[u8], rec: &[u8]) -> bool
    ensures { result ≡ named name.now (lines_of rec.now) }
{
    base_slices::same_bytes(
        name,
        find_field::field(rec, Code::GroupHeader, Sought::Receiver),
    )
}
