// Those who work on groups of items.

/// Those who work on groups of items, each worker on one group.
///
/// Its ghost members say what the work means to a contract: what it asks of each item, and what it
/// makes of one.
pub trait Crew<I> {
    ghost use Rattle.std.specs.List.{All, AllZip};

    /// What is asked of an item.
    ghost is_ready: { Self → I → Type 0 };

    /// What may be made of an item: what it was, and what it is then.
    ghost makes: { Self → I → I → Type 0 };

    /// Works on a group, whose items stand in falling order of their numbers.
    fn work(&self, group: &mut [I])
        requires { All (is_ready self.now) group.old }
        ensures { AllZip (makes self.now) group.old group.new };
}
