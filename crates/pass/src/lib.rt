// A pass over the leaves of a layout, one after the other: a reading from bytes into a table, or a first pass over the rows of a
// writing. What is made of leaves is a function of the crates above, for every pass.
#![tactic(auto)]

ghost use Rattle.std.specs.Prelude.{◌≡◌, ◌↔◌, true, ltb, ℕ};
ghost use Rattle.std.specs.Borrow.{MutBor};
ghost use Rattle.layout.specs.Layout.{Layout, Kind, Tag, Flag, Number, Count, one, text};
ghost use Rattle.layout.specs.Forms.{may, times, list};
ghost use Rattle.layout.specs.Entities.{OptionStr, OptionU32};
ghost use Rattle.table.specs.Answers.{number_of};
ghost use Rattle.pass.specs.Pass.{Meaning, Runs, Halts, Stays, Judges, value_in};

use table::RefusalKind;

// A pass that is refused goes no further: what it is then asked to pass over changes nothing.
pub trait Pass {
    ghost meaning: { Meaning Self };

    // This and the next five pass over a leaf. Here: the kind of an entity.
    fn kind(&mut self) -> u32
        ensures runs { Runs meaning (one Kind) self.old self.new }
        ensures value { result ≡ value_in meaning self.new };

    // Another tag.
    fn u8(&mut self) -> u32
        ensures runs { Runs meaning (one Tag) self.old self.new }
        ensures value { result ≡ value_in meaning self.new };

    // A flag.
    fn bool(&mut self) -> bool
        ensures runs { Runs meaning (one Flag) self.old self.new }
        ensures value { result ≡ ltb 0 (value_in meaning self.new) };

    // A number.
    fn u32(&mut self)
        ensures { Runs meaning (one Number) self.old self.new };

    // The count of a list.
    fn count(&mut self) -> u32
        ensures runs { Runs meaning (one Count) self.old self.new }
        ensures value { result ≡ value_in meaning self.new };

    // A text.
    fn str(&mut self)
        ensures { Runs meaning text self.old self.new };

    // Where the next leaf begins.
    fn place(&self) -> usize
        ensures { result ≡ meaning.place (meaning.state self.now) };

    // The value of a tag that was passed, by its distance from a place.
    fn seen(&self, begin: usize, index: usize) -> u32
        ensures { result ≡ meaning.seen (meaning.lent self.now) begin index };

    // Refuses what began at a place, unless the pass is refused already.
    fn refuse(&mut self, kind: RefusalKind, begin: usize)
        ensures { Halts meaning (number_of kind) begin self.old self.new };

    // Whether the pass is refused.
    fn is_refused(&self) -> bool
        ensures { (result ≡ true) ↔ meaning.refused (meaning.state self.now) };

    ghost stays: { Stays meaning };

    ghost judges: { Judges meaning };
}

// An optional part: a flag, then the part if the flag is 1.
pub fn option<P: Pass, F: FnOnce(&mut P)>(p: &mut P, part: F)
    requires { F.IsAlwaysCallable part }
    ensures { (L : Layout) → ((q r : MutBor P) → F.post part q tt r → Runs P.meaning L q.now r.now) → Runs P.meaning (may L) p.old p.new }
{
    if p.bool() {
        part(p)
    }
}

// A list: a count, then that many items.
pub fn list<P: Pass, F: Fn(&mut P)>(p: &mut P, item: F)
    requires { F.IsAlwaysCallable item }
    ensures { (L : Layout) → ((q r : MutBor P) → F.post item q tt r → Runs P.meaning L q.now r.now) → Runs P.meaning (list L) p.old p.new }
{
    let count = p.count();
    times(p, count, item)
}

// That many items.
pub fn times<P: Pass, F: Fn(&mut P)>(p: &mut P, count: u32, item: F)
    requires { F.IsAlwaysCallable item }
    ensures { (L : Layout) → ((q r : MutBor P) → F.post item q tt r → Runs P.meaning L q.now r.now) → Runs P.meaning (times count L) p.old p.new }
{
    for _ in 0..count {
        if p.is_refused() {
            return;
        }
        item(p);
    }
}

// An optional text.
pub fn option_str<P: Pass>(p: &mut P)
    ensures { Runs P.meaning OptionStr p.old p.new }
{
    option(p, P::str)
}

// An optional number.
pub fn option_u32<P: Pass>(p: &mut P)
    ensures { Runs P.meaning OptionU32 p.old p.new }
{
    option(p, P::u32)
}
