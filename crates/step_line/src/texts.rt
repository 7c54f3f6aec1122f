use std::marker::Model;

/// The texts of the options and of the interfaces, as a command line gives them.
#[derive(Drop)]
pub struct StepArgs<'a, 'm> {
    /// The address of the router's AS.
    pub ia: &'a str,
    /// The router's number in its AS.
    pub router: &'a str,
    /// The AS's key, in hexadecimal.
    pub key: &'a str,
    /// The key that was in use before, in hexadecimal, if there is one.
    pub previous: Option<&'a str>,
    /// The second of the router's step.
    pub now: &'a str,
    /// How the packet came.
    pub from: &'a str,
    /// The AS's interfaces.
    pub interfaces: &'m [&'a str],
}

impl<'a, 'm> Model for StepArgs<'a, 'm> {
    ghost use Rattle.std.specs.Prelude.{map};
    ghost use Rattle.std.specs.Option.{option_copied};
    ghost use Rattle.step_line.specs.Turn.{StepOptions};

    ghost Value = { StepOptions };

    ghost view = { λ t. record {
      ia = t.ia.now;
      router = t.router.now;
      key = t.key.now;
      previous = option_copied t.previous;
      now = t.now.now;
      from = t.from.now;
      interfaces = map (λ i. i.now) t.interfaces.now;
    } };
}
