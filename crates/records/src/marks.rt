// The marks of document 01 as the numbers that a head holds: "mark (two ASCII letters)", little-endian. In the order of the grammar's rows.
ghost use Rattle.std.specs.Prelude.{◌≡◌, ◌<◌, length};
ghost use Rattle.definition.specs.Grammar.{known, place};
ghost use Rattle.records.specs.Marks.{number_of};
ghost use Rattle.records.specs.Reads.{Reads};

// printed by tools/grammar-tables: marks

pub const MO: u16 = 0x6f4d; // "Mo": a module

pub const OP: u16 = 0x704f; // "Op": an opaque part: source text

pub const NO: u16 = 0x6f4e; // "No": absent

pub const IM: u16 = 0x6d49; // "Im": an import, a re-export or an export assignment

pub const ST: u16 = 0x7453; // "St": any other statement

pub const ED: u16 = 0x6445; // "Ed": an exported declaration

pub const XD: u16 = 0x6458; // "Xd": a default export of a class, a function or an interface

pub const XE: u16 = 0x6558; // "Xe": a default export of an expression

pub const FD: u16 = 0x6446; // "Fd": a function declaration

pub const CD: u16 = 0x6443; // "Cd": a class declaration

pub const VD: u16 = 0x6456; // "Vd": a variable declaration

pub const US: u16 = 0x7355; // "Us": a using declaration

pub const EN: u16 = 0x6e45; // "En": an enum

pub const NS: u16 = 0x734e; // "Ns": a namespace: its name, and its body

pub const IN: u16 = 0x6e49; // "In": an interface

pub const TY: u16 = 0x7954; // "Ty": a type alias

pub const VR: u16 = 0x7256; // "Vr": a variable: its pattern, and its init

pub const EM: u16 = 0x6d45; // "Em": an enum's member: its name, and its init

pub const NB: u16 = 0x624e; // "Nb": a namespace's body, as items

pub const ND: u16 = 0x644e; // "Nd": a namespace's body, as a namespace inside: its name, and its body

pub const FU: u16 = 0x7546; // "Fu": what a function holds: type parameters, return type, body, parameters

pub const PA: u16 = 0x6150; // "Pa": a parameter

pub const PP: u16 = 0x7050; // "Pp": a constructor's parameter that is a property

pub const CL: u16 = 0x6c43; // "Cl": what a class holds: type parameters, members

pub const CO: u16 = 0x6f43; // "Co": a constructor: body, parameters

pub const ME: u16 = 0x654d; // "Me": a method, a getter or a setter

pub const CP: u16 = 0x7043; // "Cp": a class property

pub const DM: u16 = 0x6d44; // "Dm": a private or empty member, a static block or an auto accessor

pub const IX: u16 = 0x7849; // "Ix": an index signature

pub const PS: u16 = 0x7350; // "Ps": a property of an object type

pub const OM: u16 = 0x6d4f; // "Om": any other member of an object type

pub const PB: u16 = 0x6250; // "Pb": an array pattern

pub const PO: u16 = 0x6f50; // "Po": an object pattern

pub const BD: u16 = 0x6442; // "Bd": a name as a pattern

pub const AG: u16 = 0x6741; // "Ag": a pattern with a default

pub const RS: u16 = 0x7352; // "Rs": a rest pattern

pub const PE: u16 = 0x6550; // "Pe": an expression as a pattern

pub const PI: u16 = 0x6950; // "Pi": an invalid pattern

pub const KI: u16 = 0x694b; // "Ki": a name as a key

pub const KC: u16 = 0x634b; // "Kc": a computed key

pub const SS: u16 = 0x7353; // "Ss": a string

pub const NU: u16 = 0x754e; // "Nu": a number

pub const BI: u16 = 0x6942; // "Bi": a big integer

pub const BL: u16 = 0x6c42; // "Bl": a boolean

pub const NL: u16 = 0x6c4e; // "Nl": null

pub const RE: u16 = 0x6552; // "Re": a regex

pub const JT: u16 = 0x744a; // "Jt": JSX text

pub const ID: u16 = 0x6449; // "Id": an identifier

pub const AR: u16 = 0x7241; // "Ar": an array

pub const OB: u16 = 0x624f; // "Ob": an object

pub const FX: u16 = 0x7846; // "Fx": a function expression

pub const CX: u16 = 0x7843; // "Cx": a class expression

pub const AW: u16 = 0x7741; // "Aw": an arrow function: type parameters, return type, parameters

pub const TE: u16 = 0x6554; // "Te": a template

pub const MI: u16 = 0x694d; // "Mi": a unary minus

pub const CA: u16 = 0x6143; // "Ca": a call

pub const NE: u16 = 0x654e; // "Ne": an object made by new

pub const MB: u16 = 0x624d; // "Mb": a member of an object

pub const BN: u16 = 0x6e42; // "Bn": a binary expression

pub const OC: u16 = 0x634f; // "Oc": an optional chain

pub const TC: u16 = 0x6354; // "Tc": an expression as const

pub const NN: u16 = 0x6e4e; // "Nn": a non-null assertion

pub const PR: u16 = 0x7250; // "Pr": an expression in parentheses

pub const AS: u16 = 0x7341; // "As": an expression as a type

pub const TS: u16 = 0x7354; // "Ts": an expression that satisfies a type

pub const TA: u16 = 0x6154; // "Ta": an angle-bracket assertion

pub const OE: u16 = 0x654f; // "Oe": any other expression

pub const SP: u16 = 0x7053; // "Sp": a spread

pub const KV: u16 = 0x764b; // "Kv": a key and its value

pub const SH: u16 = 0x6853; // "Sh": a shorthand property

pub const PQ: u16 = 0x7150; // "Pq": any other property

pub const QU: u16 = 0x7551; // "Qu": a text between the expressions of a template

pub const TM: u16 = 0x6d54; // "Tm": a member of a tuple type

pub const KW: u16 = 0x774b; // "Kw": a keyword type

pub const TL: u16 = 0x6c54; // "Tl": a literal type

pub const RF: u16 = 0x6652; // "Rf": a type reference

pub const TF: u16 = 0x6654; // "Tf": a typeof type

pub const LI: u16 = 0x694c; // "Li": an object type

pub const AY: u16 = 0x7941; // "Ay": an array type

pub const TU: u16 = 0x7554; // "Tu": a tuple type

pub const RT: u16 = 0x7452; // "Rt": a rest type

pub const RO: u16 = 0x6f52; // "Ro": a readonly type

pub const FT: u16 = 0x7446; // "Ft": a function type: type parameters, return type, parameters

pub const CT: u16 = 0x7443; // "Ct": a constructor type

pub const OT: u16 = 0x744f; // "Ot": any other type

// How many marks of records there are.
pub const KNOWN: usize = 85;

// end of what is printed

// The marks, in the order of the grammar's rows.
#[derive(Clone, Copy, PartialEq, Eq, Debug)]
pub enum Mark {
    // printed by tools/grammar-tables: enum
    Mo, // a module
    Op, // an opaque part: source text
    No, // absent
    Im, // an import, a re-export or an export assignment
    St, // any other statement
    Ed, // an exported declaration
    Xd, // a default export of a class, a function or an interface
    Xe, // a default export of an expression
    Fd, // a function declaration
    Cd, // a class declaration
    Vd, // a variable declaration
    Us, // a using declaration
    En, // an enum
    Ns, // a namespace: its name, and its body
    In, // an interface
    Ty, // a type alias
    Vr, // a variable: its pattern, and its init
    Em, // an enum's member: its name, and its init
    Nb, // a namespace's body, as items
    Nd, // a namespace's body, as a namespace inside: its name, and its body
    Fu, // what a function holds: type parameters, return type, body, parameters
    Pa, // a parameter
    Pp, // a constructor's parameter that is a property
    Cl, // what a class holds: type parameters, members
    Co, // a constructor: body, parameters
    Me, // a method, a getter or a setter
    Cp, // a class property
    Dm, // a private or empty member, a static block or an auto accessor
    Ix, // an index signature
    Ps, // a property of an object type
    Om, // any other member of an object type
    Pb, // an array pattern
    Po, // an object pattern
    Bd, // a name as a pattern
    Ag, // a pattern with a default
    Rs, // a rest pattern
    Pe, // an expression as a pattern
    Pi, // an invalid pattern
    Ki, // a name as a key
    Kc, // a computed key
    Ss, // a string
    Nu, // a number
    Bi, // a big integer
    Bl, // a boolean
    Nl, // null
    Re, // a regex
    Jt, // JSX text
    Id, // an identifier
    Ar, // an array
    Ob, // an object
    Fx, // a function expression
    Cx, // a class expression
    Aw, // an arrow function: type parameters, return type, parameters
    Te, // a template
    Mi, // a unary minus
    Ca, // a call
    Ne, // an object made by new
    Mb, // a member of an object
    Bn, // a binary expression
    Oc, // an optional chain
    Tc, // an expression as const
    Nn, // a non-null assertion
    Pr, // an expression in parentheses
    As, // an expression as a type
    Ts, // an expression that satisfies a type
    Ta, // an angle-bracket assertion
    Oe, // any other expression
    Sp, // a spread
    Kv, // a key and its value
    Sh, // a shorthand property
    Pq, // any other property
    Qu, // a text between the expressions of a template
    Tm, // a member of a tuple type
    Kw, // a keyword type
    Tl, // a literal type
    Rf, // a type reference
    Tf, // a typeof type
    Li, // an object type
    Ay, // an array type
    Tu, // a tuple type
    Rt, // a rest type
    Ro, // a readonly type
    Ft, // a function type: type parameters, return type, parameters
    Ct, // a constructor type
    Ot, // any other type
    // end of what is printed
}

// How many slots there are, and two numbers by which no two marks have the same one.
// printed by tools/grammar-tables: slot numbers

const SLOTS: usize = 256;

const FACTOR: usize = 7039;

const DIVISOR: usize = 4096;

// end of what is printed

// The marks, each at its slot. What has no mark's slot is Mo.
#[rattlefmt::skip]
static BY_SLOT: [Mark; SLOTS] = [
    // printed by tools/grammar-tables: slots
    Mark::Op, Mark::Kw, Mark::Pp, Mark::Mo, Mark::Mo, Mark::Mo, Mark::Mo, Mark::Sp, Mark::Mo,
    Mark::Mo, Mark::Bl, Mark::Mo, Mark::Cl, Mark::Mo, Mark::Mo, Mark::Mo, Mark::As, Mark::Mo,
    Mark::Mo, Mark::Mo, Mark::Mo, Mark::Mo, Mark::Me, Mark::Ne, Mark::Mo, Mark::Oe, Mark::Mo,
    Mark::Pe, Mark::Mo, Mark::Mo, Mark::Re, Mark::Nl, Mark::Mo, Mark::Mo, Mark::Te, Mark::Mo,
    Mark::Mo, Mark::Ca, Mark::Ns, Mark::Mo, Mark::Xe, Mark::Tl, Mark::Ps, Mark::Mo, Mark::Mo,
    Mark::Rs, Mark::Mo, Mark::Ss, Mark::Mo, Mark::Ts, Mark::Us, Mark::Mo, Mark::Co, Mark::Mo,
    Mark::Mo, Mark::Mo, Mark::Mo, Mark::Mo, Mark::Mo, Mark::Pa, Mark::Mo, Mark::Mo, Mark::Mo,
    Mark::Mo, Mark::Mo, Mark::Mo, Mark::Ta, Mark::Mo, Mark::Mo, Mark::Mo, Mark::Mo, Mark::No,
    Mark::Sh, Mark::Kv, Mark::Po, Mark::Bd, Mark::Cd, Mark::Ro, Mark::Mo, Mark::Mo, Mark::Ed,
    Mark::Mo, Mark::Fd, Mark::Mo, Mark::Mo, Mark::Mo, Mark::Mo, Mark::Id, Mark::Ar, Mark::Mo,
    Mark::Mo, Mark::Mo, Mark::Mo, Mark::Mo, Mark::Mo, Mark::Nd, Mark::Ay, Mark::Mo, Mark::Mo,
    Mark::Mo, Mark::Mo, Mark::Mo, Mark::Mo, Mark::Mo, Mark::Mo, Mark::Mo, Mark::Mo, Mark::Mo,
    Mark::Mo, Mark::Vd, Mark::Mo, Mark::Mo, Mark::Xd, Mark::Ag, Mark::Pr, Mark::Mo, Mark::Mo,
    Mark::Mo, Mark::Mo, Mark::Mo, Mark::Mo, Mark::Mo, Mark::Bn, Mark::Mo, Mark::Vr, Mark::Mo,
    Mark::Mo, Mark::En, Mark::Ty, Mark::Mo, Mark::Mo, Mark::Mo, Mark::Mo, Mark::Mo, Mark::In,
    Mark::Mo, Mark::Fu, Mark::Mo, Mark::Mo, Mark::Mo, Mark::Mo, Mark::Mo, Mark::Mo, Mark::Nn,
    Mark::Mo, Mark::Mo, Mark::Mo, Mark::Mo, Mark::Mo, Mark::Mo, Mark::Nu, Mark::Mo, Mark::Mo,
    Mark::Mo, Mark::Mo, Mark::Qu, Mark::Mo, Mark::Mo, Mark::Mo, Mark::Mo, Mark::Mo, Mark::Tu,
    Mark::Kc, Mark::Mo, Mark::Mo, Mark::Mo, Mark::Mo, Mark::Mo, Mark::Mo, Mark::Oc, Mark::Mo,
    Mark::Cx, Mark::Mo, Mark::Mo, Mark::Mo, Mark::Mo, Mark::Fx, Mark::Mo, Mark::Tc, Mark::Mo,
    Mark::Mo, Mark::Ix, Mark::Mo, Mark::Mo, Mark::Mo, Mark::Mo, Mark::Pq, Mark::Mo, Mark::Mo,
    Mark::Mo, Mark::Mo, Mark::Mo, Mark::Mo, Mark::Mo, Mark::Mo, Mark::Mo, Mark::Mo, Mark::Mo,
    Mark::Dm, Mark::Em, Mark::Mo, Mark::Mo, Mark::Mo, Mark::Ct, Mark::Mo, Mark::Mo, Mark::Im,
    Mark::Mo, Mark::Mo, Mark::Ft, Mark::Mo, Mark::Mo, Mark::Mo, Mark::Mo, Mark::Rf, Mark::Jt,
    Mark::Om, Mark::Tf, Mark::Mo, Mark::Mo, Mark::Mo, Mark::Mo, Mark::Mo, Mark::Mo, Mark::Ot,
    Mark::Tm, Mark::Bi, Mark::Mo, Mark::Mo, Mark::Rt, Mark::Mo, Mark::St, Mark::Mo, Mark::Mo,
    Mark::Mo, Mark::Mo, Mark::Cp, Mark::Mo, Mark::Mb, Mark::Nb, Mark::Aw, Mark::Ob, Mark::Ki,
    Mark::Pb, Mark::Li, Mark::Mi, Mark::Mo, Mark::Mo, Mark::Mo, Mark::Mo, Mark::Pi, Mark::Mo,
    Mark::Mo, Mark::Mo, Mark::Mo, Mark::Mo,
    // end of what is printed
];

impl Mark {
    // The mark with this number, where it is known that one has it. It is looked up by its slot, since a `match` over the numbers of all marks halves
    // seven times.
    #[inline(always)]
    pub fn known(number: u16) -> Mark
        requires { place known number < length known }
        ensures { number_of result ≡ number }
    {
        BY_SLOT[usize::from(number) * FACTOR / DIVISOR % SLOTS]
    }
}

// A number that no mark has.
#[derive(Clone, Copy, PartialEq, Eq, Debug)]
pub struct UnknownMark(pub u16);

impl TryFrom<u16> for Mark {
    type Error = UnknownMark;

    ghost try_from_gives = { Reads };

    fn try_from(number: u16) -> Result<Self, UnknownMark> {
        Ok(match number {
            // printed by tools/grammar-tables: read
            0x6f4d => Mark::Mo,
            0x704f => Mark::Op,
            0x6f4e => Mark::No,
            0x6d49 => Mark::Im,
            0x7453 => Mark::St,
            0x6445 => Mark::Ed,
            0x6458 => Mark::Xd,
            0x6558 => Mark::Xe,
            0x6446 => Mark::Fd,
            0x6443 => Mark::Cd,
            0x6456 => Mark::Vd,
            0x7355 => Mark::Us,
            0x6e45 => Mark::En,
            0x734e => Mark::Ns,
            0x6e49 => Mark::In,
            0x7954 => Mark::Ty,
            0x7256 => Mark::Vr,
            0x6d45 => Mark::Em,
            0x624e => Mark::Nb,
            0x644e => Mark::Nd,
            0x7546 => Mark::Fu,
            0x6150 => Mark::Pa,
            0x7050 => Mark::Pp,
            0x6c43 => Mark::Cl,
            0x6f43 => Mark::Co,
            0x654d => Mark::Me,
            0x7043 => Mark::Cp,
            0x6d44 => Mark::Dm,
            0x7849 => Mark::Ix,
            0x7350 => Mark::Ps,
            0x6d4f => Mark::Om,
            0x6250 => Mark::Pb,
            0x6f50 => Mark::Po,
            0x6442 => Mark::Bd,
            0x6741 => Mark::Ag,
            0x7352 => Mark::Rs,
            0x6550 => Mark::Pe,
            0x6950 => Mark::Pi,
            0x694b => Mark::Ki,
            0x634b => Mark::Kc,
            0x7353 => Mark::Ss,
            0x754e => Mark::Nu,
            0x6942 => Mark::Bi,
            0x6c42 => Mark::Bl,
            0x6c4e => Mark::Nl,
            0x6552 => Mark::Re,
            0x744a => Mark::Jt,
            0x6449 => Mark::Id,
            0x7241 => Mark::Ar,
            0x624f => Mark::Ob,
            0x7846 => Mark::Fx,
            0x7843 => Mark::Cx,
            0x7741 => Mark::Aw,
            0x6554 => Mark::Te,
            0x694d => Mark::Mi,
            0x6143 => Mark::Ca,
            0x654e => Mark::Ne,
            0x624d => Mark::Mb,
            0x6e42 => Mark::Bn,
            0x634f => Mark::Oc,
            0x6354 => Mark::Tc,
            0x6e4e => Mark::Nn,
            0x7250 => Mark::Pr,
            0x7341 => Mark::As,
            0x7354 => Mark::Ts,
            0x6154 => Mark::Ta,
            0x654f => Mark::Oe,
            0x7053 => Mark::Sp,
            0x764b => Mark::Kv,
            0x6853 => Mark::Sh,
            0x7150 => Mark::Pq,
            0x7551 => Mark::Qu,
            0x6d54 => Mark::Tm,
            0x774b => Mark::Kw,
            0x6c54 => Mark::Tl,
            0x6652 => Mark::Rf,
            0x6654 => Mark::Tf,
            0x694c => Mark::Li,
            0x7941 => Mark::Ay,
            0x7554 => Mark::Tu,
            0x7452 => Mark::Rt,
            0x6f52 => Mark::Ro,
            0x7446 => Mark::Ft,
            0x7443 => Mark::Ct,
            0x744f => Mark::Ot,
            // end of what is printed
            _ => return Err(UnknownMark(number)),
        })
    }
}

impl From<Mark> for u16 {
    ghost from_gives = { λ mark r. r ≡ number_of mark };

    fn from(mark: Mark) -> u16 {
        match mark {
            // printed by tools/grammar-tables: written
            Mark::Mo => 0x6f4d,
            Mark::Op => 0x704f,
            Mark::No => 0x6f4e,
            Mark::Im => 0x6d49,
            Mark::St => 0x7453,
            Mark::Ed => 0x6445,
            Mark::Xd => 0x6458,
            Mark::Xe => 0x6558,
            Mark::Fd => 0x6446,
            Mark::Cd => 0x6443,
            Mark::Vd => 0x6456,
            Mark::Us => 0x7355,
            Mark::En => 0x6e45,
            Mark::Ns => 0x734e,
            Mark::In => 0x6e49,
            Mark::Ty => 0x7954,
            Mark::Vr => 0x7256,
            Mark::Em => 0x6d45,
            Mark::Nb => 0x624e,
            Mark::Nd => 0x644e,
            Mark::Fu => 0x7546,
            Mark::Pa => 0x6150,
            Mark::Pp => 0x7050,
            Mark::Cl => 0x6c43,
            Mark::Co => 0x6f43,
            Mark::Me => 0x654d,
            Mark::Cp => 0x7043,
            Mark::Dm => 0x6d44,
            Mark::Ix => 0x7849,
            Mark::Ps => 0x7350,
            Mark::Om => 0x6d4f,
            Mark::Pb => 0x6250,
            Mark::Po => 0x6f50,
            Mark::Bd => 0x6442,
            Mark::Ag => 0x6741,
            Mark::Rs => 0x7352,
            Mark::Pe => 0x6550,
            Mark::Pi => 0x6950,
            Mark::Ki => 0x694b,
            Mark::Kc => 0x634b,
            Mark::Ss => 0x7353,
            Mark::Nu => 0x754e,
            Mark::Bi => 0x6942,
            Mark::Bl => 0x6c42,
            Mark::Nl => 0x6c4e,
            Mark::Re => 0x6552,
            Mark::Jt => 0x744a,
            Mark::Id => 0x6449,
            Mark::Ar => 0x7241,
            Mark::Ob => 0x624f,
            Mark::Fx => 0x7846,
            Mark::Cx => 0x7843,
            Mark::Aw => 0x7741,
            Mark::Te => 0x6554,
            Mark::Mi => 0x694d,
            Mark::Ca => 0x6143,
            Mark::Ne => 0x654e,
            Mark::Mb => 0x624d,
            Mark::Bn => 0x6e42,
            Mark::Oc => 0x634f,
            Mark::Tc => 0x6354,
            Mark::Nn => 0x6e4e,
            Mark::Pr => 0x7250,
            Mark::As => 0x7341,
            Mark::Ts => 0x7354,
            Mark::Ta => 0x6154,
            Mark::Oe => 0x654f,
            Mark::Sp => 0x7053,
            Mark::Kv => 0x764b,
            Mark::Sh => 0x6853,
            Mark::Pq => 0x7150,
            Mark::Qu => 0x7551,
            Mark::Tm => 0x6d54,
            Mark::Kw => 0x774b,
            Mark::Tl => 0x6c54,
            Mark::Rf => 0x6652,
            Mark::Tf => 0x6654,
            Mark::Li => 0x694c,
            Mark::Ay => 0x7941,
            Mark::Tu => 0x7554,
            Mark::Rt => 0x7452,
            Mark::Ro => 0x6f52,
            Mark::Ft => 0x7446,
            Mark::Ct => 0x7443,
            Mark::Ot => 0x744f,
            // end of what is printed
        }
    }
}

// "`d1` to `d5`", the marks of diagnostics: "the cases of `FastCheckDtsDiagnostic`, in order".
pub const D1: u16 = 0x3164; // UnableToInferType

pub const D2: u16 = 0x3264; // UnableToInferTypeFallbackAny

pub const D3: u16 = 0x3364; // UnableToInferTypeFromProp

pub const D4: u16 = 0x3464; // UnableToInferTypeFromSpread

pub const D5: u16 = 0x3564; // UnsupportedUsing

// The row of the grammar that a mark has, and KNOWN where it is "unknown mark".
pub fn mark_number(mark: u16) -> usize
    ensures { result ≡ place known mark }
{
    match mark {
        // printed by tools/grammar-tables: numbers
        MO => 0,
        OP => 1,
        NO => 2,
        IM => 3,
        ST => 4,
        ED => 5,
        XD => 6,
        XE => 7,
        FD => 8,
        CD => 9,
        VD => 10,
        US => 11,
        EN => 12,
        NS => 13,
        IN => 14,
        TY => 15,
        VR => 16,
        EM => 17,
        NB => 18,
        ND => 19,
        FU => 20,
        PA => 21,
        PP => 22,
        CL => 23,
        CO => 24,
        ME => 25,
        CP => 26,
        DM => 27,
        IX => 28,
        PS => 29,
        OM => 30,
        PB => 31,
        PO => 32,
        BD => 33,
        AG => 34,
        RS => 35,
        PE => 36,
        PI => 37,
        KI => 38,
        KC => 39,
        SS => 40,
        NU => 41,
        BI => 42,
        BL => 43,
        NL => 44,
        RE => 45,
        JT => 46,
        ID => 47,
        AR => 48,
        OB => 49,
        FX => 50,
        CX => 51,
        AW => 52,
        TE => 53,
        MI => 54,
        CA => 55,
        NE => 56,
        MB => 57,
        BN => 58,
        OC => 59,
        TC => 60,
        NN => 61,
        PR => 62,
        AS => 63,
        TS => 64,
        TA => 65,
        OE => 66,
        SP => 67,
        KV => 68,
        SH => 69,
        PQ => 70,
        QU => 71,
        TM => 72,
        KW => 73,
        TL => 74,
        RF => 75,
        TF => 76,
        LI => 77,
        AY => 78,
        TU => 79,
        RT => 80,
        RO => 81,
        FT => 82,
        CT => 83,
        OT => 84,
        // end of what is printed
        _ => KNOWN,
    }
}
