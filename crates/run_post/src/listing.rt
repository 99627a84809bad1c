// The two lists of a run.
ghost use Rattle.std.specs.Prelude.{◌≡◌, ◌*◌, [], ◌∷◌};
ghost use Rattle.run_post.specs.Listed.{AddMatchAsks, AddLineAsks, AddMatchGives, AddLineGives};

use filling::Filling;
use matching::Match;
use quantities::Lots;
use reply::Counts;

// The lists that a run was lent, and how many entries of each are written.
#[derive(Drop)]
pub struct Lists<'a> {
    pub matches: &'a mut [u64],
    pub lines: &'a mut [u64],
    pub counts: Counts,
}

impl Lists<'_> {
    // "A match is basket, deliverer, receiver, matched yen, covered yen, forced issue, forced lots". Its lines stand before it is added.
    pub fn add_match(&mut self, basket: u64, m: Match, f: Filling)
        requires { AddMatchAsks self.old.matches.now self.old.counts.matches }
        ensures { AddMatchGives self.old self.new basket m f }
    {
        let at = layout::MATCH * self.counts.matches;
        let end = at + layout::MATCH;
        self.matches[at..end].copy_from_slice(&[
            basket,
            m.deliverer as u64,
            m.receiver as u64,
            m.amount.0,
            f.covered.0,
            f.forced,
            f.forced_lots.0,
        ]);
        self.counts.matches = self.counts.matches + 1;
    }

    // "A line is match number .., issue, lots": of the match that is added next.
    pub fn add_line(&mut self, issue: u64, lots: Lots)
        requires { AddLineAsks self.old.lines.now self.old.counts.lines }
        ensures { AddLineGives self.old self.new issue lots.0 }
    {
        let at = layout::LINE * self.counts.lines;
        let end = at + layout::LINE;
        let number = self.counts.matches as u64;
        self.lines[at..end].copy_from_slice(&[number, issue, lots.0]);
        self.counts.lines = self.counts.lines + 1;
    }
}
