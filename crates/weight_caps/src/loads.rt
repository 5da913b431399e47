// What a path comes to: its running weight, the number of its conditions, and their weights.
ghost use Rattle.std.specs.Prelude.{◌≡◌};
ghost use Rattle.weight_caps.specs.Loads.{nothing_yet, with_added, with_decided, with_test, with_tests};

use crate::sums::plus;

/// The running weight of a path, the number of its conditions so far, and the sum of their weights,
/// each as far as the cap. What these are to the weights of a path is told by
/// `loads_are_those_of_parts`.
pub struct Load {
    pub running: u32,
    pub conditions: u32,
    pub weight: u32,
}

impl Load {
    /// Nothing.
    pub fn new() -> Load
        ensures { result ≡ nothing_yet }
    {
        Load {
            running: 0,
            conditions: 0,
            weight: 0,
        }
    }

    /// So much is added to the running weight.
    pub fn add(&mut self, weight: u32)
        ensures { self.new ≡ with_added self.old weight }
    {
        self.running = plus(self.running, weight);
    }

    /// A choice is decided by what has this weight.
    pub fn decide(&mut self, weight: u32)
        ensures { self.new ≡ with_decided self.old weight }
    {
        self.running = plus(self.running, plus(weight, 1));
    }

    /// What has this weight is tested: there is a condition more, and it weighs the running weight
    /// behind the test.
    pub fn test(&mut self, weight: u32)
        ensures { self.new ≡ with_test self.old weight }
    {
        self.running = plus(self.running, plus(weight, 1));
        self.conditions = plus(self.conditions, 1);
        self.weight = plus(self.weight, self.running);
    }

    /// Each of some is tested, in order.
    pub fn test_all(&mut self, weights: &[u32])
        ensures { self.new ≡ with_tests self.old weights.now }
    {
        for weight in weights {
            self.test(*weight);
        }
    }
}
