// What is true of all streams and messages: laws over the definitions, each the contract of a function without a
// body.
ghost use Rattle.std.specs.Prelude.{◌≡◌, ℕ, [], ◌++◌, List, All, Some, Ok, map};
ghost use Rattle.text.specs.Terms.{HasNoNewline, bounded_line};
ghost use Rattle.wire.specs.Fulfilled.{Stream, fed, lines_from, rest_from};
ghost use Rattle.wire.specs.Message.{Message, IsSendable, message_of, message_text, frames_of};

/// Two pieces in turn leave what both leave as one piece: the lines are the same however a stream is cut.
pub fn pieces_concatenate()
    ensures { (s : Stream) (a b : List ℕ) → fed (fed s a) b ≡ fed s (a ++ b) }
{}

/// What has begun goes on with the next piece, also where only that it is too long is kept of it.
pub fn begun_lines_go_on()
    ensures lines { (begun piece : List ℕ) → HasNoNewline begun
        → lines_from (bounded_line begun) piece ≡ lines_from (Some []) (begun ++ piece) }
    ensures rest { (begun piece : List ℕ) → HasNoNewline begun
        → rest_from (bounded_line begun) piece ≡ rest_from (Some []) (begun ++ piece) }
{}

/// Reading the text of a message gives the message again.
pub fn messages_read_back()
    ensures { (m : Message) → IsSendable m → message_of (message_text m) ≡ Ok m }
{}

/// Messages that are sent one after another come through a stream as one line each.
pub fn messages_come_through()
    ensures lines { (ms : List Message) → All IsSendable ms
        → lines_from (Some []) (frames_of ms) ≡ map (λ m. Some (message_text m)) ms }
    ensures rest { (ms : List Message) → All IsSendable ms → rest_from (Some []) (frames_of ms) ≡ Some [] }
{}
