// Document 01, "Looking up": how many headers a message has, parameters of all headers, and content headers. Any record and any bytes
// may be lent.

ghost use Rattle.std.specs.Prelude.{◌≡◌};
ghost use Rattle.std.proofs.Math.Option.{Option};
ghost use Rattle.format.specs.Message.{Message};
ghost use Rattle.format.specs.Layout.{Held};
ghost use Rattle.format.specs.Lending.{head_lent};
ghost use Rattle.format.specs.LookingUp.{count_headers, count_params, count_contents};

use format::CpimMessage;
use lookup_nth::Entries;
use store_check::message_holds;

// How many headers there are, parameters of all headers, and content headers; 0 where no message is held.
pub fn count_headers(m: CpimMessage, head: &[u8]) -> usize
    ensures { (o : Option Message) → Held (head_lent m head.now) o → result ≡ count_headers o }
{
    if message_holds(m, head) { m.headers } else { 0 }
}

pub fn count_params(m: CpimMessage, head: &[u8]) -> usize
    ensures { (o : Option Message) → Held (head_lent m head.now) o → result ≡ count_params o }
{
    if !message_holds(m, head) {
        return 0;
    }
    let to = 256 + m.headerlen;
    let headers = Entries {
        bytes: &head[256..to],
        count: m.headers,
    };
    headers.count_params()
}

pub fn count_contents(m: CpimMessage, head: &[u8]) -> usize
    ensures { (o : Option Message) → Held (head_lent m head.now) o → result ≡ count_contents o }
{
    if message_holds(m, head) {
        m.contents
    } else {
        0
    }
}
