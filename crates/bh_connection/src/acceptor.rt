ghost use Rattle.std.specs.Prelude.{◌≡◌, ◌∷◌, Bool, true, List, [], Option, None, IfOk, MatchResult};
ghost use Rattle.bh_http.specs.Transfers.{Logs};
ghost use Rattle.bh_connection.specs.Each.{IsGoing, ends};
ghost use Rattle.bh_host.specs.declared.reply.Caller.TheVariants.{Operator};
ghost use Rattle.bh_connection.specs.Groups.{Call, Accepted, NotAccepted, ToldReading, ToldNone, Opened, Closed, accepted_more};

use crate::backup::CacheUses;
use crate::each::Arrival;
use crate::served::Served;
use bh_host::Caller;
use bh_link::ends::{Sink, Source};
use std::io;

/// Accepts connections, alone or several to be served together, and reads the clock by which they
/// are served.
///
/// No contract can promise what a socket or a clock returns. But an acceptor may record its calls
/// with their results, and by these a server's contract is stated.
pub trait Acceptor {
    type Reader: Source + Drop;

    type Writer: Sink + Drop;

    /// Its calls with their results, oldest first, if it records them.
    ghost calls: { Self → Option (List Call) } = { λ _. None };

    /// Whether it accepts operators, beside clients.
    ghost operated: { Self → Bool } = { λ _. true };

    /// Waits for the next connection, makes it the current one, and returns who connected.
    fn accept(&mut self) -> io::Result<Caller>
        ensures calls { MatchResult result (λ caller. Logs (calls self.old) (calls self.new) (Accepted caller ∷ []))
            (λ _. Logs (calls self.old) (calls self.new) (NotAccepted ∷ [])) }
        ensures admitted { IfOk result (λ caller. caller ≡ Operator → operated self.old ≡ true) }
        ensures operated { operated self.new ≡ operated self.old };

    /// Makes another client's connection the current one, if its request is there whole already, and
    /// may be served together with those before it. It doesn't wait. All requests of a group are kept
    /// in memory at once, so each of them is small, the first one too.
    fn accept_more(&mut self) -> bool
        ensures calls { Logs (calls self.old) (calls self.new) (accepted_more result) }
        ensures operated { operated self.new ≡ operated self.old };

    /// The clock's reading: whole seconds since 1970.
    fn seconds(&mut self) -> io::Result<u64>
        ensures calls { MatchResult result (λ reading. Logs (calls self.old) (calls self.new) (ToldReading reading ∷ []))
            (λ _. Logs (calls self.old) (calls self.new) (ToldNone ∷ [])) }
        ensures operated { operated self.new ≡ operated self.old };

    /// The two ends of the current connection, at a reading of the clock.
    fn open(&mut self, reading: u64) -> Arrival<Self::Reader, Self::Writer>
        ensures calls { Logs (calls self.old) (calls self.new)
            (Opened (ends Self.Reader.Source.remaining Self.Reader.Source.transfers
            Self.Writer.Sink.contents Self.Writer.Sink.transfers result) ∷ []) }
        ensures going { IsGoing result }
        ensures reading { result.reading ≡ reading }
        ensures operated { operated self.new ≡ operated self.old };

    /// Closes the connection of these ends; `served` is how it ended.
    fn close(&mut self, arrival: Arrival<Self::Reader, Self::Writer>, served: Served)
        ensures calls { Logs (calls self.old) (calls self.new)
            (Closed (ends Self.Reader.Source.remaining Self.Reader.Source.transfers
            Self.Writer.Sink.contents Self.Writer.Sink.transfers arrival) served ∷ []) }
        ensures operated { operated self.new ≡ operated self.old };

    /// Whether it wants to know how many bytes nobody needs. It is asked before each group.
    fn wants_count(&mut self) -> bool
        ensures calls { calls self.new ≡ calls self.old }
        ensures operated { operated self.new ≡ operated self.old };

    /// Takes how the cache of blocks was used.
    fn take_cache(&mut self, uses: CacheUses)
        ensures calls { calls self.new ≡ calls self.old }
        ensures operated { operated self.new ≡ operated self.old };

    /// Takes how many bytes the blocks have that no reference names.
    fn take_count(&mut self, bytes: u64)
        ensures calls { calls self.new ≡ calls self.old }
        ensures operated { operated self.new ≡ operated self.old };
}
