// What a run counts, step by step.
ghost use Rattle.std.specs.Prelude.{◌≡◌, ◌≤◌};
ghost use Rattle.gather.specs.Counted.{counts_after};

use machine_messages::Machine;

// Exchanges, and the messages sent in them: none in a direct run.
#[derive(Clone, Copy, Debug, PartialEq, Eq)]
pub struct Counts {
    pub exchanges: usize,
    pub messages: usize,
}

impl Counts {
    // No exchange and no message.
    pub const NONE: Counts = Counts {
        exchanges: 0,
        messages: 0,
    };

    // With those of a step that is finished: what its lines took, and its remote messages in an exchange of their own, "1 more if
    // it holds a remote rule".
    pub fn after(self, machine: Machine, gathered: Counts, sends: bool, sent: usize) -> Counts
        requires { (self.exchanges ≤ 4611686018427387904) × (self.messages ≤ 4611686018427387904)
            × (gathered.exchanges ≤ 65536) × (gathered.messages ≤ 1048576) × (sent ≤ 1048576) }
        ensures { result ≡ counts_after machine self gathered sends sent }
    {
        match machine {
            Machine::Direct => self,
            Machine::Messages => Counts {
                exchanges: self.exchanges + gathered.exchanges + usize::from(sends),
                messages: self.messages + gathered.messages + sent,
            },
        }
    }
}
