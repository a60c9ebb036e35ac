//! Words of other assemblers and other processors, and what to write here.

/// What to write in place of a word of another assembler or processor.
#[derive(Clone, Copy)]
pub enum Hint {
    /// This word.
    Word(&'static [u8]),
    /// What these words say.
    Words(&'static [u8]),
}

impl Hint {
    /// Returns what is said of the hint: what stands before its words, and these.
    pub fn parts(self) -> (&'static [u8], &'static [u8]) {
        match self {
            Hint::Word(word) => (b"write ", word),
            Hint::Words(words) => (b"", words),
        }
    }
}

/// What to write, and the words in place of which it is written: in capitals, without a point, with
/// a blank between two.
type Row = (Hint, &'static [u8]);

/// The words that give a name its value, which stands before them.
const EQUALS: &[u8] = b"EQU EQ SET ASSIGN DEF EQUATE";

/// The words that give the name after them a value behind a `=`.
const DEFINES: &[u8] = b"ADDR ADDRESS SET CONST VAR LABEL";

/// What to write in place of directives of other assemblers.
const DIRECTIVES: [Row; 22] = [
    (
        Hint::Words(b"write *= and the address"),
        b"ORG BA PC ALIGN RORG",
    ),
    (
        Hint::Words(b"write NAME = and the value"),
        b"EQU EQ SET ASSIGN DEF DEFINE EQUATE CONST VAR LABEL",
    ),
    (
        Hint::Word(b".BYTE"),
        b"BYTE BYT DB DCB DC DFB DEFB FCB CHAR BY",
    ),
    (Hint::Words(b"write .BYTE and each byte as $FF"), b"HEX"),
    (
        Hint::Words(b"write .BYTE \"...\""),
        b"TEXT ASCII ASC STR STRING FCC DEFM TX RAW",
    ),
    (
        Hint::Words(b"write .BYTE and the codes: \"...\" is ASCII"),
        b"PET SCR SCRU SCREEN SCRXOR",
    ),
    (Hint::Words(b"write .BYTE \"...\",0"), b"ASCIIZ ASCIZ NULL"),
    (
        Hint::Word(b".WORD"),
        b"WORD WOR DW DA DEFW ADDR WO DFW INT LE16",
    ),
    (Hint::Word(b".DBYTE"), b"DBYTE DBYT DDB FDB DBY BE16"),
    (
        Hint::Words(b"write .RES and how many bytes"),
        b"RES DS DEFS RMB BLOCK FILL SKIP SPACE BLKB DSB",
    ),
    (Hint::Word(b".END"), b"END"),
    (
        Hint::Words(b"leave the line out: --profile says which instructions there are"),
        b"PROCESSOR CPU SETCPU P02 PC02 CHIP",
    ),
    (
        Hint::Words(b"no other file is read: put its lines here"),
        b"INCLUDE INC INCSRC ICL INSERT SRC SOURCE",
    ),
    (
        Hint::Words(b"no other file is read: put its bytes here by .BYTE"),
        b"INCBIN BINARY BIN",
    ),
    (
        Hint::Words(b"there are no macros: write the lines, or a subroutine"),
        b"MACRO MAC ENDM ENDMACRO ENDMAC MEND",
    ),
    (
        Hint::Words(b"there are no conditions: leave lines out, or let them in"),
        b"IF IFDEF IFNDEF ELSE ELSEIF ELIF ENDIF FI EIF",
    ),
    (
        Hint::Words(b"there are no repetitions: write each line"),
        b"REPEAT REPT REPEND ENDREP ENDR FOR NEXT REP DO WHILE UNTIL",
    ),
    (
        Hint::Words(b"there are no segments: *= says where lines stand"),
        b"SEGMENT SEG SECTION CODE DATA BSS ZEROPAGE RODATA PSEUDOPC REALPC",
    ),
    (
        Hint::Words(b"there are no scopes: each label is a name of its own"),
        b"PROC ENDPROC PEND SCOPE ENDSCOPE SUBROUTINE LOCAL BEND ZONE ZN SUBZONE SZ",
    ),
    (
        Hint::Words(b"leave the line out: a source is one file"),
        b"EXPORT IMPORT GLOBAL GLOBL EXTERN PUBLIC XDEF XREF",
    ),
    (
        Hint::Words(b"leave the line out: \"...\" is ASCII"),
        b"CONVTAB CT CHARMAP ENC ENCODING",
    ),
    (
        Hint::Words(b"leave the line out"),
        b"LIST NOLIST TITLE PAGE OPT TTL NAM FEATURE TO SL INITMEM WARN ERROR SERIOUS",
    ),
];

/// What to write in place of words behind a `!`, as in ACME, where these say something else than
/// without it.
const MARKED: [Row; 7] = [
    (Hint::Words(b"write NAME = and the value"), b"ADDR ADDRESS"),
    (Hint::Word(b".BYTE"), b"8 08"),
    (Hint::Word(b".WORD"), b"16"),
    (
        Hint::Words(b"write .BYTE and each byte"),
        b"24 32 LE24 LE32 BE24 BE32",
    ),
    (Hint::Words(b"write .RES and how many bytes"), b"FI"),
    (Hint::Words(b"write .BYTE and each byte as $FF"), b"H"),
    (Hint::Words(b"leave the line out"), b"SYMBOLLIST INFO DEBUG"),
];

/// What to write in place of mnemonics of other processors.
const OPERATIONS: [Row; 20] = [
    (Hint::Word(b"PHA"), b"PUSH PSH PSHA"),
    (Hint::Word(b"PLA"), b"POP PULL PULA"),
    (Hint::Word(b"JSR"), b"CALL BSR GOSUB"),
    (Hint::Word(b"RTS"), b"RET RETURN"),
    (Hint::Word(b"RTI"), b"RETI IRET"),
    (Hint::Word(b"JMP"), b"JUMP JP GOTO BR"),
    (
        Hint::Words(b"write BRK, or a jump to itself"),
        b"HALT HLT STOP STP WAI EXIT",
    ),
    (
        Hint::Words(b"write LDA, and STA to store it"),
        b"MOV MOVE MVI LD LOAD LDAA",
    ),
    (Hint::Word(b"STA"), b"ST STORE STAA"),
    (Hint::Words(b"write CLC, then ADC"), b"ADD ADDA"),
    (Hint::Words(b"write SEC, then SBC"), b"SUB SUBA"),
    (Hint::Word(b"EOR"), b"XOR EORA"),
    (Hint::Word(b"ORA"), b"OR"),
    (Hint::Words(b"write EOR #$FF"), b"NOT CPL COM"),
    (Hint::Words(b"write ASL A"), b"SHL SLA LSL"),
    (Hint::Words(b"write LSR A"), b"SHR SRL"),
    (Hint::Word(b"BEQ"), b"JZ JE BZ"),
    (Hint::Word(b"BNE"), b"JNZ JNE BNZ"),
    (Hint::Word(b"BCC"), b"JNC BLT BLO JB"),
    (Hint::Word(b"BCS"), b"JC BGE BHS JAE"),
];

/// Returns a word without the point before it.
fn without_point(text: &[u8]) -> &[u8] {
    match text {
        [b'.', rest @ ..] => rest,
        _ => text,
    }
}

/// Returns whether a word, in capitals or not, is one of some with a blank between two.
fn is_one_of(words: &[u8], word: &[u8]) -> bool {
    words
        .split(|byte| *byte == b' ')
        .any(|known| known.eq_ignore_ascii_case(word))
}

/// Returns whether a word gives the name before it a value, in another assembler.
pub fn gives_value(text: &[u8]) -> bool {
    is_one_of(EQUALS, without_point(text))
}

/// Returns whether a word gives the name after it a value behind a `=`, in another assembler.
pub fn defines_by_equals(text: &[u8]) -> bool {
    is_one_of(DEFINES, without_point(text))
}

/// Returns what the row of a word says, if one of some rows has it.
fn hint_in(rows: &[Row], text: &[u8]) -> Option<Hint> {
    for (hint, words) in rows {
        if is_one_of(words, without_point(text)) {
            return Some(*hint);
        }
    }
    None
}

/// Returns what to write in place of a directive of another assembler, if it is known.
pub fn directive_hint(text: &[u8]) -> Option<Hint> {
    hint_in(&DIRECTIVES, text)
}

/// Returns what to write in place of a directive of another assembler behind a `!`, if it is known.
pub fn marked_hint(text: &[u8]) -> Option<Hint> {
    hint_in(&MARKED, text).or(directive_hint(text))
}

/// Returns what to write in place of a mnemonic of another processor, if it is known.
pub fn operation_hint(text: &[u8]) -> Option<Hint> {
    hint_in(&OPERATIONS, text)
}
