// The families of tokens: what kind of work a token asks for. specs/Family.antt has the same names for the definitions, and
// `all_families` shows that the two agree.
ghost use Rattle.std.specs.Prelude.{◌≡◌};
ghost use Rattle.tokens.specs.Family.{families};

pub const UNLISTED: u32 = 0;

pub const PLAIN: u32 = 1;

pub const FINISH: u32 = 2;

pub const ALWAYS: u32 = 3;

pub const CHOICE: u32 = 4;

pub const TEXT: u32 = 5;

pub const WIDEN: u32 = 6;

pub const DIVIDE: u32 = 7;

pub const PICK_UP: u32 = 8;

pub const ROLL_UP: u32 = 9;

pub const MAYBE: u32 = 10;

pub const LEAVE: u32 = 11;

pub const FETCH: u32 = 12;

pub const STORE: u32 = 13;

pub const DEFINE: u32 = 14;

pub const KIND: u32 = 15;

pub const ASSIGN: u32 = 16;

pub const CALL: u32 = 17;

pub const ENCODE_INT: u32 = 18;

pub const ENCODE_STRING: u32 = 19;

pub const JOIN: u32 = 20;

pub const PROPERTY: u32 = 21;

pub const TITLED: u32 = 22;

pub const NEW_DEVICE: u32 = 23;

pub const FINISH_DEVICE: u32 = 24;

pub fn all_families() -> [u32; 25]
    ensures { result ≡ families }
{
    [
        UNLISTED,
        PLAIN,
        FINISH,
        ALWAYS,
        CHOICE,
        TEXT,
        WIDEN,
        DIVIDE,
        PICK_UP,
        ROLL_UP,
        MAYBE,
        LEAVE,
        FETCH,
        STORE,
        DEFINE,
        KIND,
        ASSIGN,
        CALL,
        ENCODE_INT,
        ENCODE_STRING,
        JOIN,
        PROPERTY,
        TITLED,
        NEW_DEVICE,
        FINISH_DEVICE,
    ]
}
