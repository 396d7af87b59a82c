// How many nodes a tree has, and how many of them end a run.
ghost use Rattle.std.specs.Prelude.{◌≡◌};
ghost use Rattle.walk.specs.Counts.{Few, with_node, with_order};

#[derive(Clone, Copy, Debug, Default, PartialEq, Eq)]
pub struct Counts {
    pub nodes: u32,
    pub orders: u32,
}

impl Counts {
    // One node more, that does not end a run.
    pub(crate) fn with_node(self) -> Counts
        requires { Few self }
        ensures { result ≡ with_node self }
    {
        Counts {
            nodes: self.nodes + 1,
            ..self
        }
    }

    // One node more, that ends a run.
    pub(crate) fn with_order(self) -> Counts
        requires { Few self }
        ensures { result ≡ with_order self }
    {
        Counts {
            orders: self.orders + 1,
            ..self.with_node()
        }
    }
}
