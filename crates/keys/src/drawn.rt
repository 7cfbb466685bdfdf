// A drawn number and the key name that it was drawn under. It is spent by a seal or by `burn`, and can be neither lost nor used twice.
ghost use Rattle.std.specs.Prelude.{◌≡◌, true};
ghost use Rattle.keys.specs.Key.{key_after, UnchangedIfRefused, Kept};
ghost use Rattle.keys.specs.Token.{token_answer};

use crate::Sealer;
use answers::Refusal;

// Its fields are private, so that only `draw` makes one, and only `burn` marks it spent.
pub struct Drawn {
    key: [u8; 8],
    number: u32,
    // A flag, by the rule for a token: its drop is allowed, but only when it is spent.
    spent: bool,
}

// By hand, since a derived drop asks for nothing.
impl Drop for Drawn {
    fn drop(self)
        requires { self.spent ≡ true }
    {
        let Drawn {
            key: _,
            number: _,
            spent: _,
        } = self;
    }
}

impl Drawn {
    pub fn key_name(&self) -> [u8; 8]
        ensures { result ≡ self.now.key }
    {
        self.key
    }

    pub fn number(&self) -> u32
        ensures { result ≡ self.now.number }
    {
        self.number
    }
}

// Draws the next number.
pub fn draw<S: Sealer>(sealer: &mut S) -> Result<Drawn, Refusal>
    ensures answer { result ≡ token_answer (S.key sealer.old) }
    ensures afterwards { S.key sealer.new ≡ key_after result (S.key sealer.old) }
    ensures unchanged { UnchangedIfRefused result sealer.new sealer.old }
    ensures kept { Kept S.kind S.says S.signature S.owns sealer.old sealer.new }
{
    let key = sealer.key_name();
    let number = sealer.draw_number()?;
    Ok(Drawn {
        key,
        number,
        spent: false,
    })
}

// Spends a number, and answers which it was.
pub fn burn(mut drawn: Drawn) -> u32
    ensures { result ≡ drawn.number }
{
    drawn.spent = true;
    drawn.number
}
