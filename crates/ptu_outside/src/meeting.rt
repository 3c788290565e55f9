//! Where the lanes of a grandmaster meet after each round.

ghost use Rattle.std.specs.Prelude.{◌≡◌, ◌≤◌};

use std::sync::{Condvar, Mutex, Wait};

/// What comes behind a meeting of lanes.
#[derive(Clone, Copy, Debug, PartialEq, Eq)]
pub enum Ahead {
    /// The next round.
    Round,
    /// What one lane does alone, and then one meeting more.
    Order,
    /// No round.
    End,
}

// How many lanes take part, how many of these have come, how many meetings are over, whether a lane
// has given up, and what was said to come behind the meeting of this number.
#[derive(Drop)]
struct Count {
    lanes: u64,
    come: u64,
    over: u64,
    short: bool,
    said: Ahead,
    said_of: u64,
    ghost within: { come ≤ lanes },
}

impl Count {
    fn come(&mut self) {
        if self.come < self.lanes {
            self.come += 1;
        }
    }

    fn leave(&mut self) {
        if self.come < self.lanes {
            self.lanes -= 1;
        }
    }

    // Whether one lane has others to wait for: more than that one are still to come, and none has
    // given up.
    fn lacks_others(&self) -> bool {
        !self.short && 1 < self.lanes - self.come
    }

    // What comes behind the last meeting.
    fn ahead(&self) -> Ahead {
        if self.said_of == self.over {
            self.said
        } else {
            Ahead::Round
        }
    }

    // Ends the meeting where all have come, and says whether it has.
    fn end(&mut self) -> bool {
        if self.come < self.lanes {
            return false;
        }
        self.come = 0;
        self.over = self.over.saturating_add(1);
        true
    }
}

/// Where lanes meet after each round. All have their threads before the first comes, so each waits
/// for all others.
#[derive(Drop)]
pub struct Meeting {
    count: Mutex<Count>,
    ended: Condvar,
    others_came: Condvar,
}

impl Meeting {
    /// A meeting of so many lanes, before their first round.
    pub fn new(lanes: u64) -> Meeting {
        Meeting {
            count: Mutex::new(Count {
                lanes,
                come: 0,
                over: 0,
                short: false,
                said: Ahead::Round,
                said_of: 0,
            }),
            ended: Condvar::new(),
            others_came: Condvar::new(),
        }
    }

    /// Waits until all others have come that take part, or one has given up. Says whether none
    /// has. The others stay until this lane comes, too. Only one lane may wait so: two would wait
    /// for each other.
    pub fn await_others(&self, rt: &impl Wait) -> bool {
        let count = self.count.lock(rt);
        let count = self
            .others_came
            .wait_while(rt, count, |count| count.lacks_others());
        !count.short
    }

    /// Says what comes behind the meeting to which this lane comes next. Only one lane may say so.
    pub fn say(&self, rt: &impl Wait, ahead: Ahead) {
        let mut count = self.count.lock(rt);
        count.said = ahead;
        count.said_of = count.over.saturating_add(1);
    }

    /// Comes, and waits until all have come that take part. Gives what was said to come then, a
    /// round where nothing was; or `None` where a lane has given up.
    pub fn meet(&self, rt: &impl Wait) -> Option<Ahead> {
        let mut count = self.count.lock(rt);
        let before = count.over;
        count.come();
        if count.end() {
            self.ended.notify_all();
        } else if !count.lacks_others() {
            self.others_came.notify_all();
        }
        let count = self
            .ended
            .wait_while(rt, count, |count| count.over <= before);
        if count.short {
            None
        } else {
            Some(count.ahead())
        }
    }

    /// Takes part no more, and ends the work of all.
    pub fn give_up(&self, rt: &impl Wait) {
        let mut count = self.count.lock(rt);
        count.short = true;
        count.leave();
        if 0 < count.come && count.end() {
            self.ended.notify_all();
        }
        self.others_came.notify_all();
    }
}
