//! Words of a line: names and numbers.

ghost use Rattle.report.specs.Printing.{Puts, piece_length};
ghost use Rattle.report.specs.Texts.{actor_name, host_name, log_name, next_word};
ghost use Rattle.std.specs.Prelude.{◌≤◌, ◌++◌, [], ◌∷◌, decimal, length};

use crate::printing::Printer;
use dcd_base::{Actor, HostId, LogId, Sink};

impl Printer {
    /// Puts a space and a word.
    #[tactic(auto, using(crate::proofs::Parts::prints_then))]
    pub fn write_word<K: Sink>(&mut self, sink: &mut K, word: &[u8])
        requires { length word.now ≤ piece_length }
        ensures { Puts K.taken K.faults sink.old self.old sink.new self.new (next_word word.now) }
    {
        self.put(sink, b" ");
        self.put(sink, word);
    }

    /// Puts a space and a number.
    #[tactic(auto, using(crate::proofs::Parts::prints_then))]
    pub fn write_count<K: Sink>(&mut self, sink: &mut K, count: u64)
        ensures { Puts K.taken K.faults sink.old self.old sink.new self.new (next_word (decimal count)) }
    {
        self.put(sink, b" ");
        self.write_number(sink, count);
    }

    /// Puts what is counted and the count, each behind a space.
    #[tactic(auto, using(crate::proofs::Parts::prints_then))]
    pub fn write_counted<K: Sink>(&mut self, sink: &mut K, what: &[u8], count: u64)
        requires { length what.now ≤ piece_length }
        ensures { Puts K.taken K.faults sink.old self.old sink.new self.new (next_word what.now ++ next_word (decimal count)) }
    {
        self.write_word(sink, what);
        self.write_count(sink, count);
    }

    /// Puts a space and the name of a host.
    #[tactic(auto, using(crate::proofs::Parts::prints_then))]
    pub fn write_host<K: Sink>(&mut self, sink: &mut K, host: HostId)
        ensures { Puts K.taken K.faults sink.old self.old sink.new self.new (next_word (host_name host)) }
    {
        self.write_word(sink, b"h");
        self.write_number(sink, u64::from(host.0));
    }

    /// Puts a space and the name of an actor.
    pub fn write_actor<K: Sink>(&mut self, sink: &mut K, actor: Actor)
        ensures { Puts K.taken K.faults sink.old self.old sink.new self.new (next_word (actor_name actor)) }
    {
        match actor {
            Actor::Host(host) => self.write_host(sink, host),
            Actor::Manager => self.write_word(sink, b"fm"),
            Actor::Sanitizer => self.write_word(sink, b"sz"),
        }
    }

    /// Puts a space and the name of a log.
    pub fn write_log<K: Sink>(&mut self, sink: &mut K, log: &LogId)
        ensures { Puts K.taken K.faults sink.old self.old sink.new self.new (next_word (log_name log.now)) }
    {
        match log {
            LogId::Host(host) => self.write_host(sink, *host),
            LogId::Manager => self.write_word(sink, b"fm"),
        }
    }

    /// Ends the line.
    pub fn end_line<K: Sink>(&mut self, sink: &mut K)
        ensures { Puts K.taken K.faults sink.old self.old sink.new self.new (10 ∷ []) }
    {
        self.put(sink, b"\n");
    }
}
