// The token of a started run: it may be let go only after a close has spent it, so a caller that holds one closes a run.
ghost use Rattle.std.specs.Prelude.{◌≡◌, true};

// A flag, and no type for each state: the product asks for a token beside the run that close spends.
pub struct CloseToken {
    pub(crate) spent: bool,
}

impl Drop for CloseToken {
    fn drop(self)
        requires { self.spent ≡ true }
    {
        let CloseToken { spent: _ } = self;
    }
}
