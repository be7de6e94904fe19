//! What a core asks of its links.

use seq::Shared;
use ump_ring::{Busy, LineFault};

/// The links of a core to its peers, which are named by their numbers. No call takes memory. `look`, `take`, `pump` and a
/// `send` to another peer leave a ready link ready.
pub trait Links: Drop {
    ghost use Rattle.std.specs.Prelude.{◌≡◌, ◌≢◌, ◌≤◌, ◌↔◌, ◌<◌, [], ℕ, IfOk, IsTrue, IsFalse, length, vec_len};
    ghost use Rattle.std.specs.Borrow.{sem};
    ghost use Rattle.ump_ring.specs.Joiners.{shown_items};
    ghost use Rattle.core_links.specs.Flows.{Flow, no_flow, FlowsOut, FlowsIn, FlowsAt};
    ghost use Rattle.core_links.specs.Views.{LinkView, no_link, first_of, AtPeer, Pulled, GivenUp, Looked, Taken, HandedOver, HandedBytes, Pumped, LeavesSo};
    ghost use Rattle.core_links.specs.Waking.{bits_below};
    ghost use Rattle.core_links.specs.Calm.{IsCalm};

    /// What was sent to a peer and taken from it.
    ghost view: { Self → ℕ → LinkView };

    /// The same links, before and after a call.
    ghost same: { Self → Self → Type 0 };

    /// The lines that went over the link to a peer, those that its ends know of, and whether it says that one moved.
    ghost flow: { Self → ℕ → Flow };

    /// Whether the link to a peer takes a message.
    fn ready(&self, peer: u16) -> bool
        ensures { result ≡ (view self.now peer).ready };

    /// Whether a line went to a peer, or came from it, since the last `pump` began. So the peer may be able to do what it couldn't.
    fn moved(&self, peer: u16) -> bool
        ensures { result ≡ (flow self.now peer).moved };

    /// A number above those of all peers that it has a link to.
    fn span(&self) -> u16
        ensures { (p : ℕ) → result ≤ p → (view self.now p ≡ no_link) × (flow self.now p ≡ no_flow) };

    /// What `moved` says of each peer below `cores`: a bit for each, the least for core 0.
    fn moved_below(&self, cores: u16) -> u64
        requires { cores ≤ 64 }
        ensures { result ≡ bits_below cores (λ p. (flow self.now p).moved) };

    /// Whether nothing can be there: each link keeps no message, knows of no line and runs, as `calm_down` noted, and no peer has sent a
    /// line since. So no link has to be looked at.
    fn is_calm(&mut self) -> bool
        ensures links { same self.old self.new }
        ensures views { (p : ℕ) → view self.new p ≡ view self.old p }
        ensures lines { (p : ℕ) → flow self.new p ≡ flow self.old p }
        ensures calm { IsTrue result → (p : ℕ) → IsCalm (view self.new p) (flow self.new p) };

    /// Notes that the links to all peers below `cores` were looked at since `is_calm` was asked, and are calm.
    fn calm_down(&mut self, cores: u16)
        requires calm { (p : ℕ) → p < cores → IsCalm (view self.old p) (flow self.old p) }
        ensures links { same self.old self.new }
        ensures views { (p : ℕ) → view self.new p ≡ view self.old p }
        ensures lines { (p : ℕ) → flow self.new p ≡ flow self.old p };

    /// Takes in what has come from a peer until a whole message is kept, and says whether one is. After a fault every call
    /// answers the same.
    fn shows(&mut self, peer: u16) -> Result<bool, LineFault>
        ensures pulled { AtPeer same view peer (λ v w. Pulled v w result) self.old self.new }
        ensures lines { FlowsAt flow peer (λ v w. FlowsIn v w (view self.new peer).kept result) self.old self.new }
        ensures kept { IfOk result (λ shows. IsTrue shows ↔ ((view self.new peer).kept ≢ [])) };

    /// Takes in what has come from a peer until a whole message is kept. After a fault every call answers the same.
    /// `pull` and `shown` are `look` in two steps, for a type that holds the links and reads the message while it asks
    /// for more.
    final fn pull(&mut self, peer: u16) -> Result<(), LineFault>
        ensures pulled { AtPeer same view peer (λ v w. Pulled v w result) self.old self.new }
        ensures lines { FlowsAt flow peer (λ v w. FlowsIn v w (view self.new peer).kept result) self.old self.new }
    {
        self.shows(peer)?;
        Ok(())
    }

    /// The first message of a peer that is kept.
    fn shown(&self, peer: u16) -> Option<&[u8]>
        ensures { shown_items result ≡ first_of (view self.now peer).kept };

    /// Gives up the first message of a peer that is kept, and says whether there was one. After `pull` this is `take`
    /// without the message.
    fn give_up(&mut self, peer: u16) -> bool
        ensures given { AtPeer same view peer GivenUp self.old self.new }
        ensures lines { (p : ℕ) → flow self.new p ≡ flow self.old p }
        ensures some { IsTrue result → (view self.old peer).kept ≢ [] }
        ensures none { IsFalse result → (view self.old peer).kept ≡ [] };

    /// Lends the first whole message of a peer, and keeps it. After a fault every call answers the same.
    final fn look(&mut self, peer: u16) -> Result<Option<&[u8]>, LineFault>
        ensures* looked { sem 𝓛 (LeavesSo Self.row self.entry (λ new. AtPeer same view peer (λ v w. Looked v w result) self.entry.now new)) }
    {
        self.pull(peer)?;
        Ok(self.shown(peer))
    }

    /// Lends the first whole message of a peer, and gives it up. After a fault every call answers the same.
    fn take(&mut self, peer: u16) -> Result<Option<&[u8]>, LineFault>
        ensures* taken { sem 𝓛 (LeavesSo Self.row self.entry (λ new. AtPeer same view peer (λ v w. Taken v w result) self.entry.now new)) };

    /// Hands a message of 1 to 32,832 bytes over to be sent. A ready link takes it, and another hands it back.
    fn send(&mut self, peer: u16, message: Vec<u8>) -> Result<(), Busy>
        requires length { (1 ≤ vec_len message) × (vec_len message ≤ 32832) }
        ensures sent { AtPeer same view peer (λ v w. HandedOver v w message result) self.old self.new }
        ensures lines { (p : ℕ) → flow self.new p ≡ flow self.old p };

    /// Hands a copy of a message of 1 to 56 bytes over to be sent, and says whether the link took it: a ready one does, and no
    /// other.
    fn send_short(&mut self, peer: u16, message: &[u8]) -> bool
        requires length { (1 ≤ length message.now) × (length message.now ≤ 56) }
        ensures sent { AtPeer same view peer (λ v w. HandedBytes v w message.now result) self.old self.new }
        ensures lines { (p : ℕ) → flow self.new p ≡ flow self.old p };

    /// Hands a message of 1 to 32,832 bytes over that is sent to other peers, too, and says whether the link took it: a ready one
    /// does, and no other.
    fn send_shared(&mut self, peer: u16, message: Shared<u8>) -> bool
        requires length { (1 ≤ length message) × (length message ≤ 32832) }
        ensures sent { AtPeer same view peer (λ v w. HandedBytes v w message result) self.old self.new }
        ensures lines { (p : ℕ) → flow self.new p ≡ flow self.old p };

    /// Moves on what waits to be sent, as far as there is room.
    fn pump(&mut self)
        ensures links { same self.old self.new }
        ensures pumped { (p : ℕ) → Pumped (view self.old p) (view self.new p) }
        ensures lines { (p : ℕ) → FlowsOut (flow self.old p) (flow self.new p) (view self.new p).ready };

    ghost same_itself: { (a : Self) → same a a };

    ghost same_along: { (a b c : Self) → same a b → same b c → same a c };
}
