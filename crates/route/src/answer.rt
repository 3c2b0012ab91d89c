// What the choice of a bearer gives.
ghost use Rattle.std.specs.Prelude.{◌≡◌};
ghost use Rattle.route.specs.Routes.{refusal_number, number_of};

// Not an Option: to discard a packet is what the rule says of it, and no lack of an answer.
#[derive(Clone, Copy, PartialEq, Eq)]
pub enum Route {
    Bearer(u8),
    Discard,
}

#[derive(Clone, Copy, PartialEq, Eq)]
pub enum Refusal {
    NotWellFormed,
    NoDefault,
    InvalidHeader,
}

// By which filter a packet goes, with its bearer, place and precedence; or that none fits, and what is done then.
#[derive(Clone, Copy, PartialEq, Eq)]
pub enum Why {
    Filter {
        bearer: u8,
        place: u8,
        precedence: u8,
    },
    Default(u8),
    Discard,
}

impl Refusal {
    pub fn number(self) -> u8
        ensures { result ≡ refusal_number self }
    {
        match self {
            Refusal::NotWellFormed => 1,
            Refusal::NoDefault => 8,
            Refusal::InvalidHeader => 2,
        }
    }
}

// 0 where the packet is routed or discarded.
pub fn number(answer: Result<Route, Refusal>) -> u8
    ensures { result ≡ number_of answer }
{
    match answer {
        Ok(_) => 0,
        Err(refusal) => refusal.number(),
    }
}

impl From<Why> for Route {
    ghost use Rattle.route.specs.Why.{route_by};

    fn from(why: Why) -> Route
        ensures { result ≡ route_by why }
    {
        match why {
            Why::Filter { bearer, .. } | Why::Default(bearer) => Route::Bearer(bearer),
            Why::Discard => Route::Discard,
        }
    }
}
