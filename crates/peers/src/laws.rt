// What is true of all that is served: laws over the definitions, each the contract of a function without a body.
ghost use Rattle.std.specs.Prelude.{◌≡◌, ◌<◌, ◌≤◌, ◌^◌, ◌∷◌, ◌++◌, ℕ, Bool, List, [], Ok, Some, length, map};
ghost use Rattle.machine_text.specs.Terms.{Packed};
ghost use Rattle.wire.specs.Terms.{Fulfilled, Reply, message_of, message_text, Done, Grant, Message};
ghost use Rattle.peers.specs.Guard.{ArePassed, GuardState, Guards, IsOwnOf, IsReturn, asked_id, granted, is_holdout};
ghost use Rattle.peers.specs.Frames.{asked_by, gives_up};
ghost use Rattle.peers.specs.Limits.{peer_lease_limit};
ghost use Rattle.peers.specs.Peers.{PeerState, at_first, peer_at};
ghost use Rattle.peers.specs.Served.{Exchange, Rounds, Served, unseen};
ghost use Rattle.peers.specs.Sent.{GuardsAll, SaysMore, HasSaid, all_handed};

use crate::serving::Connections;
use wire::Node;

/// Whatever comes between from others, the guard of each peer takes the lines of all its bytes, in their order, as of one text.
pub fn peers_keep_apart<N: Node, C: Connections>()
    ensures first { HasSaid [] at_first }
    ensures apart { (connections : C) (old new : Served N) (exchanges : List Exchange) (place : ℕ) (said : List ℕ)
        (before after : PeerState) → Rounds N.answers (C.takes connections) old exchanges new
        → peer_at old.peers place ≡ Some before → HasSaid said before → peer_at new.peers place ≡ Some after
        → SaysMore place said exchanges after }
{}

/// What a node is handed of each peer is what that peer's guard makes of its lines, one after another.
pub fn guards_decide<N: Node, C: Connections>()
    ensures { (connections : C) (old new : Served N) (exchanges : List Exchange) (place : ℕ)
        (before after : PeerState) → Rounds N.answers (C.takes connections) old exchanges new
        → peer_at old.peers place ≡ Some before → peer_at new.peers place ≡ Some after
        → GuardsAll old.node.conduct.takes_holdouts place before.guard exchanges after.guard }
{}

/// Of the lines of a peer, one after another, its guard hands over each as it is, or nothing, or a frame that gives back a
/// lease which the peer had, or was granted. It knows no other lease, and at most `MAX_PEER_LEASES` of them.
pub fn guards_let_through()
    ensures lines { (takes_holdouts : Bool) (guard new : GuardState) (replies handed : List Reply)
        → Guards takes_holdouts guard replies handed new
        → ArePassed (IsOwnOf guard replies) (map (λ reply. reply.to) replies) (map (λ reply. reply.to) handed) }
    ensures leases { (takes_holdouts : Bool) (guard new : GuardState) (replies handed : List Reply) (frame : List ℕ)
        → Guards takes_holdouts guard replies handed new → IsReturn new.askers frame → IsOwnOf guard replies frame }
    ensures few { (takes_holdouts : Bool) (guard new : GuardState) (replies handed : List Reply)
        → Guards takes_holdouts guard replies handed new → length guard.askers ≤ peer_lease_limit
        → length new.askers ≤ peer_lease_limit }
{}

/// What a guard sees of lines and frames by their letters is so of the messages that they are: which id an `ASK` is of,
/// whether a record is a holdout's, and which `DONE` gives back the lease of a `GRANT`.
pub fn letters_say_messages()
    ensures asks { (line : List ℕ) (m : Message) → message_of line ≡ Ok m → asked_id line ≡ asked_by m }
    ensures holdouts { (line : List ℕ) (m : Message) → message_of line ≡ Ok m → is_holdout line ≡ gives_up m }
    ensures grants { (era number : ℕ) (table : Packed) (more : List ℕ) → era < 2 ^ 64 → number < 2 ^ 64
        → granted (message_text (Grant era number table) ++ (10 ∷ more)) ≡ Some (message_text (Done era number)) }
{}

/// A node and its ledger are as after its answers to all that it was handed, in their order, each fulfilled whole.
pub fn answers_follow<N: Node, C: Connections>()
    ensures { (connections : C) (old new : Served N) (exchanges : List Exchange)
        → Rounds N.answers (C.takes connections) old exchanges new
        → Fulfilled N.answers (unseen old) (all_handed exchanges) (unseen new) }
{}
