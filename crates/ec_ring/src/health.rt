//! How the sends and receives of a master's port go.

ghost use Rattle.std.specs.Prelude.{◌≡◌, ◌+◌, ◌-◌, ◌^◌, min, None, Some};

/// How the sends and receives of a master's port go.
#[derive(Clone, Copy, PartialEq, Eq, Debug)]
pub struct PortHealth {
    /// The system's number of the error with which they fail now (`errno`); `None` while they do not.
    pub error: Option<i32>,
    /// How many have failed.
    pub failures: u64,
}

impl PortHealth {
    /// Of a port of which none has failed.
    pub fn sound() -> PortHealth
        ensures { result ≡ record { error = None; failures = 0 } }
    {
        PortHealth {
            error: None,
            failures: 0,
        }
    }

    /// Behind a send or receive that failed with this error.
    pub fn failing(self, error: i32) -> PortHealth
        ensures { result ≡ record {
          error = Some error;
          failures = min (self.failures + 1) (2 ^ 64 - 1);
        } }
    {
        PortHealth {
            error: Some(error),
            failures: self.failures.saturating_add(1),
        }
    }

    /// Behind a send that did not fail.
    pub fn working(self) -> PortHealth
        ensures { result ≡ record { error = None; failures = self.failures } }
    {
        PortHealth {
            error: None,
            failures: self.failures,
        }
    }
}
