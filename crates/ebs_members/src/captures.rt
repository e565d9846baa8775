// What a router took from a path.
ghost use Rattle.std.specs.Prelude.{◌≡◌, true};
ghost use Rattle.ebs_members.specs.inner.Paths.{taken, are_texts, AreCaptured};

use matchit::Params;

/// What a router took from a path: by each name of its route a text, which stands in the path where the route has that name in braces.
#[derive(Clone, Copy)]
pub struct Captures<'a> {
    params: Params<'a, 'a>,
    ghost texts: { are_texts (taken params) ≡ true },
    ghost by_name: { AreCaptured params },
}

impl<'a> Captures<'a> {
    ghost use Rattle.std.specs.Option.{option_copied};
    ghost use Rattle.ebs_members.specs.Sources.{captured};

    /// The captures of a route that was found.
    pub fn of(params: Params<'a, 'a>) -> Captures<'a>
        requires texts { are_texts (taken params) ≡ true }
        requires by_name { AreCaptured params }
        ensures { result.params ≡ params.entry }
    {
        Captures { params }
    }

    /// The part of the path where the route has this name in braces.
    pub fn get(&self, name: &str) -> Option<&'a str>
        ensures { option_copied result ≡ captured name.now self.now.params.text.now self.now.params.path.now }
    {
        self.params.get(name)
    }
}
