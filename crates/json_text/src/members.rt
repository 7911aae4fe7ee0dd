// Places in a JSON text: elements of an array, members of an object, the one member with a name.

ghost use Rattle.std.specs.Prelude.{Some, ◌≡◌, true, ◌≤◌, ◌<◌, length};
ghost use Rattle.json_text.specs.strings.Names.{ascii};
ghost use Rattle.json_text.specs.members.Places.{next_element, next_member, value_of, first_in, is_text, AllAscii, more, noted, four_from, four_of, once_of, needed, pick_nth, elements_from, element, elements, three_of, lone_of};

// Why an object does not have a member once.
#[derive(Clone, Copy, PartialEq, Eq)]
pub enum NotOnce {
    Never,
    Twice,
}

// The value of the member with a name: where it is if the object has that member once.
pub type Given = Result<usize, NotOnce>;

// The same of four names.
#[derive(Clone, Copy)]
pub struct Four {
    pub a: Given,
    pub b: Given,
    pub c: Given,
    pub d: Given,
}

// The places of an array's elements, if it has just three.
#[derive(Clone, Copy)]
pub struct Three {
    pub x: usize,
    pub y: usize,
    pub z: usize,
}

// The element behind the one at i.
fn next_element(s: &[u8], i: usize) -> Option<usize>
    ensures { result ≡ next_element s.now i }
{
    let e = crate::skip_value(s, i, 32);
    if e == 0 {
        return None;
    }
    crate::tokens::skip_mark(s, e, b',')
}

// The member behind the one at m, whose value is at v.
fn next_member(s: &[u8], m: usize, v: usize) -> Option<usize>
    requires { v ≡ value_of s.now m }
    ensures { result ≡ next_member s.now m }
{
    if v == 0 {
        return None;
    }
    next_element(s, v)
}

// The value of the member at m; 0, where no value stands, if there is none: the definition that all that is said of members rests on counts so.
#[tactic(auto, unfolding(crate::specs::members::Places::value_of, crate::specs::tokens::Parts::and_then, crate::specs::Grammar::end_of))]
fn value_of(s: &[u8], m: usize) -> usize
    ensures { result ≡ value_of s.now m }
{
    let Some(e) = crate::strings::skip_string(s, m) else {
        return 0;
    };
    let Some(v) = crate::tokens::skip_mark(s, e, b':') else {
        return 0;
    };
    v
}

// The first item of the array or object at p, between these brackets.
#[tactic(auto, unfolding(crate::specs::members::Places::first_in))]
fn first_in(s: &[u8], p: usize, opening: u8, closing: u8) -> Option<usize>
    requires { 0 < opening }
    ensures { result ≡ first_in opening closing s.now p }
{
    if crate::tokens::byte(s, p) != opening {
        return None;
    }
    let i = crate::tokens::skip_ws(s, p + 1);
    if crate::tokens::byte(s, i) == closing {
        return None;
    }
    Some(i)
}

// Does a string with this text stand at p?
#[tactic(auto, unfolding(crate::specs::members::Places::is_text))]
pub fn is_text(s: &[u8], p: usize, words: &[u8]) -> bool
    requires { ascii words.now ≡ true }
    ensures { result ≡ is_text words.now s.now p }
{
    if crate::tokens::byte(s, p) != b'"' {
        return false;
    }
    crate::strings::says(s, p + 1, words)
}

// One more member with a name, whose value is at v.
#[tactic(auto, unfolding(crate::specs::members::Places::more))]
fn more(g: Given, v: usize) -> Given
    ensures { result ≡ more g v }
{
    match g {
        Err(NotOnce::Never) => Ok(v),
        Ok(_first) => Err(NotOnce::Twice),
        Err(NotOnce::Twice) => Err(NotOnce::Twice),
    }
}

// What is known of a name, with the member at m, whose value is at v.
#[tactic(auto, unfolding(crate::specs::members::Places::noted, crate::specs::members::Places::is_name))]
fn noted(s: &[u8], m: usize, v: usize, name: &[u8], g: Given) -> Given
    requires { (ascii name.now ≡ true) × (m ≤ length s.now) × (v ≡ value_of s.now m) }
    ensures { result ≡ noted name.now s.now g m }
{
    if crate::strings::name_is(s, m + 1, name) {
        return more(g, v);
    }
    g
}

// The values of the members with these names, among the members from m on. What is known of each is a local of its own, which
// stays in a register.
fn four_from(s: &[u8], m: usize, a: &[u8], b: &[u8], c: &[u8], d: &[u8]) -> Four
    requires { AllAscii a.now b.now c.now d.now × (m ≤ length s.now) }
    ensures { result ≡ four_from a.now b.now c.now d.now s.now (Some m) }
{
    let mut i = m;
    let mut w = Err(NotOnce::Never);
    let mut x = Err(NotOnce::Never);
    let mut y = Err(NotOnce::Never);
    let mut z = Err(NotOnce::Never);
    // Not a `for` over positions: where the next member begins is known only once this one's value has been passed.
    loop {
        let v = value_of(s, i);
        w = noted(s, i, v, a, w);
        x = noted(s, i, v, b, x);
        y = noted(s, i, v, c, y);
        z = noted(s, i, v, d, z);
        let Some(j) = next_member(s, i, v) else {
            return Four {
                a: w,
                b: x,
                c: y,
                d: z,
            };
        };
        i = j;
    }
}

// The value of the one member with each of these names in the object at p, which is walked once.
pub fn four_members(s: &[u8], p: usize, a: &[u8], b: &[u8], c: &[u8], d: &[u8]) -> Four
    requires { AllAscii a.now b.now c.now d.now }
    ensures { result ≡ four_of a.now b.now c.now d.now s.now p }
{
    let Some(m) = first_in(s, p, b'{', b'}') else {
        return Four {
            a: Err(NotOnce::Never),
            b: Err(NotOnce::Never),
            c: Err(NotOnce::Never),
            d: Err(NotOnce::Never),
        };
    };
    four_from(s, m, a, b, c, d)
}

// The value of a member that must be there, once.
#[tactic(auto, unfolding(crate::specs::members::Places::once_of))]
pub fn once(g: Given) -> Option<usize>
    ensures { result ≡ once_of g }
{
    g.ok()
}

// The value of the one member with this name, which must be there: the walk for four names serves for one.
#[tactic(auto, unfolding(crate::specs::members::Places::needed))]
pub fn needed(s: &[u8], p: usize, name: &[u8]) -> Option<usize>
    requires { ascii name.now ≡ true }
    ensures { result ≡ needed name.now s.now p }
{
    let f = four_members(s, p, name, name, name, name);
    let g = f.a;
    once(g)
}

// The k-th element from the one at a on.
fn element_from(s: &[u8], a: usize, k: u64) -> Option<usize>
    requires { a ≤ length s.now }
    ensures { result ≡ pick_nth k (elements_from s.now (Some a)) }
{
    let mut i = a;
    for _ in 0..k {
        i = next_element(s, i)?;
    }
    Some(i)
}

// The k-th element of the array at p.
pub fn element(s: &[u8], p: usize, k: u64) -> Option<usize>
    ensures { result ≡ element k s.now p }
{
    let a = first_in(s, p, b'[', b']')?;
    element_from(s, a, k)
}

// The elements of the array at p, if it has just three.
pub fn just_three(s: &[u8], p: usize) -> Option<Three>
    ensures { result ≡ three_of (elements s.now p) }
{
    let x = first_in(s, p, b'[', b']')?;
    let y = next_element(s, x)?;
    let z = next_element(s, y)?;
    match next_element(s, z) {
        None => Some(Three { x, y, z }),
        Some(_fourth) => None,
    }
}

// The element of the array at p, if it has just one.
pub fn just_one(s: &[u8], p: usize) -> Option<usize>
    ensures { result ≡ lone_of (elements s.now p) }
{
    let x = first_in(s, p, b'[', b']')?;
    match next_element(s, x) {
        None => Some(x),
        Some(_second) => None,
    }
}
