//! What takes requests to an engine, and brings its answers.

ghost use Rattle.std.specs.Prelude.{◌≡◌, Option, IfOk, OnErr, OnOk};
ghost use Rattle.fenced.specs.Engine.{Engine};
ghost use Rattle.etcd_text.specs.Asked.{HasRoom, asked_by};
ghost use Rattle.etcd_log.specs.Asking.{IsDone, IsToldBy, MayBeDone};

use devices::Failed;
use etcd_text::{Answer, Request};
use journal::KEY_BYTES;

/// It is not known what became of a request: no answer came, or it was none.
#[derive(Clone, Copy, Debug, PartialEq, Eq)]
pub struct Lost;

/// What takes requests to an engine, and brings its answers.
pub trait Exchange {
    /// The engine, where it is known, and nobody else asks it.
    ghost engine: { Self → Option Engine };

    /// Asks the engine once.
    fn ask(&mut self, request: &Request) -> Result<Answer, Lost>
        requires { HasRoom request.now }
        ensures done { OnOk result (IsDone (asked_by request.now) (engine self.old) (engine self.new)) }
        ensures told { IfOk result (IsToldBy (asked_by request.now) (engine self.old)) }
        ensures lost { OnErr result (MayBeDone (asked_by request.now) (engine self.old) (engine self.new)) };

    /// Whether what was lost may be asked once more. It rests for a while first.
    fn may_ask_again(&mut self) -> bool
        ensures { engine self.new ≡ engine self.old };

    /// A key that was just drawn.
    fn draw_key(&self) -> Result<[u8; KEY_BYTES], Failed>;
}
