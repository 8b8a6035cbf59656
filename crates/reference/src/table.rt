// The lines of the paper as a table, with a row for each line and for the starts of calls. A row:
// - its letter and the line;
// - its kind: c "contains: 12 .. 18", u "insert, remove: 32 .. 36", r "grow, shrink: 20 .. 28", f "filling place i: 39 .. 51";
// - the places that the line goes through;
// - the one word that it looks at: of the head (h), of the record that would be taken (f) or of a place; that itself (.), of a node the predecessor (p),
//   the place for the tag (k), place i (i), place i mod (its size) (r), place i + t's size (q), of a bucket the first word (1);
// - what the words of the task's record become: running, call, tag, line, i, own steps, t, s, b, m, n, new node, new bucket. "." stays, v is what the
//   line sees, and `becomes` says what other letters stand for;
// - how the next line is chosen, and the lines to choose from, 00 where the call ends: the first, or by what `way` says;
// - what is stored in the word looked at: nothing (.), 0, the new node's number (N) or the new bucket (B).
use reference_words::words::letter;

// The row of no line, for any call in spoilt memory.
pub const SPOILT: u32 = 10;

pub const KIND: usize = 5;

pub const THROUGH: usize = 7;

pub const THROUGH_TOO: usize = 8;

pub const LOOK_OF: usize = 10;

pub const LOOK_AT: usize = 11;

pub const BECOMES: usize = 13;

pub const WAY: usize = 27;

pub const NEXT: usize = 29;

pub const STORES: usize = 38;

// A letter of a row, by its column. The rows 1 to 5 are the starts of calls, others those of lines; "." where there is none.
pub fn entry(row: u32, column: usize) -> u8 {
    let x = letter(
        b".@@ABB......CD.EFGH.I...J..KL...MN..O..PQ..RS.TUVWXYZ",
        row as usize,
    );
    letter(
        b"@ .. . .. .. 1waL000000000 . 32 .. .. .
A .. . .. .. 1waL000000000 . 12 .. .. .
B .. . .. .. 1w0L000000000 . 20 .. .. .
C 12 c .. h. ...L.ov...... . 13 .. .. .
D 13 c t. tk ...L.o..v.... ? 18 15 .. .
E 15 c t. tp ...L.o.v..... ? 16 17 .. .
F 16 c s. sk ...L.o..v.... . 18 .. .. .
G 17 c t. tk ...L.o..v.... . 18 .. .. .
H 18 c b. .. ............. . 00 .. .. .
I 20 r .. h. ...L0ov...... l 39 00 .. .
J 24 r t. tp ...L.o....... . 27 .. .. 0
K 27 r t. f. ...L.o.....v. . 28 .. .. .
L 28 r tN h. ............. . 00 .. .. N
M 32 u .. h. ...L.ov...... . 33 .. .. .
N 33 u t. tk ...Leo..v.... ? 36 39 .. .
O 36 u b. b1 ...L0o0000000 ? 00 32 .. .
P 39 f t. ti ...L.o..v.... . 40 .. .. .
Q 40 f t. tp ...L.o.v..... s 51 43 46 .
R 43 f s. sr ...L.o...v... . 44 .. .. .
S 44 f m. m1 ...L.o....... . 49 .. .. 0
T 46 f s. si ...L.o...v... . 47 .. .. .
U 47 f ts sq ...L.o....v.. . 48 .. .. .
V 48 f m. m1 ...L.o....... . 52 .. .. 0
W 49 f tm f. ...L.o......v . 50 .. .. .
X 50 f tB ti ...L.o....... . 51 .. .. B
Y 51 f t. ti ...L+o.0x00.0 r 36 39 24 .
Z 52 f n. n1 ...L.o....... . 49 .. .. 0
",
        (x % 64) as usize * 40 + column % 40,
    )
}
