// Flags: their names from document 01, whether one is set, one set, one cleared. "Flag bits not named here are carried along."
ghost use Rattle.std.specs.Prelude.{◌≡◌, ◌<◌};
ghost use Rattle.definition.specs.Record.{has_flag, with_flag, without_flag};
ghost use Rattle.records.specs.Fields.{IsFlag};

// "flags (1 byte)". A number and no enum: the bits that have no name are carried along, and a struct round the byte would put a field into each clause.
pub type Flags = u8;

// "Flag 1 is declare on Fd, Cd, Vd, En, Ns"; "`Cp` (1 declare, 2 definite)".
pub const DECLARE: Flags = 1;

pub const DEFINITE: Flags = 2;

// "Vd flag 2 is const".
pub const CONST: Flags = 2;

// "`Fu` (flags 1 async, 2 generator)".
pub const ASYNC: Flags = 1;

pub const GENERATOR: Flags = 2;

// "`Me` (1 setter, 2 getter, 4 static)".
pub const SETTER: Flags = 1;

pub const GETTER: Flags = 2;

pub const STATIC: Flags = 4;

// "`Ix` (1 readonly)"; "`Ps` (1 readonly, 2 computed, 4 optional)".
pub const READONLY: Flags = 1;

pub const COMPUTED: Flags = 2;

pub const OPTIONAL_MEMBER: Flags = 4;

// "`Id` (1 optional)", and so on Pb and Po.
pub const OPTIONAL: Flags = 1;

// "`Bl` (1 true)".
pub const TRUE: Flags = 1;

// "`Qu` (1 cooked; ..)".
pub const COOKED: Flags = 1;

// Whether a flag is set.
pub fn has_flag(flags: Flags, flag: Flags) -> bool
    requires { 0 < flag }
    ensures { result ≡ has_flag flag flags }
{
    flags / flag % 2 == 1
}

// The flags with one cleared.
pub fn without_flag(flags: Flags, flag: Flags) -> Flags
    requires { IsFlag flag }
    ensures { result ≡ without_flag flag flags }
{
    if has_flag(flags, flag) {
        return flags - flag;
    }
    flags
}

// The flags with one set.
pub fn with_flag(flags: Flags, flag: Flags) -> Flags
    requires { IsFlag flag }
    ensures { result ≡ with_flag flag flags }
{
    if has_flag(flags, flag) {
        return flags;
    }
    flags + flag
}
