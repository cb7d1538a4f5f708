//! The tables of a desk, and the indexes of their keys: each table's columns stand here once, and the text of the statement that
//! makes it comes of them.

/// What a column holds.
#[derive(Clone, Copy)]
pub enum Holds {
    /// The number of the row
    Key,
    /// A text, never NULL
    Text,
    /// An integer, never NULL
    Number,
    /// An integer not below 0, never NULL
    Amount,
    /// An integer, or NULL
    Optional,
}

/// The outline of a column: its name, and what it holds.
pub type Column<'a> = (&'a str, Holds);

/// The outline of a table: its name, the tree of its rows, its columns, and the places, from 1, of the two columns of a unique key.
/// Where no column is the number of the row, this is the primary key. (A spec reads a constant of tuples, not of structs.)
pub type Table<'a> = (&'a str, u32, &'a [Column<'a>], Option<(usize, usize)>);

/// The outline of an index: its name, its tree, that of its table, and the places of its two columns.
pub type Index<'a> = (&'a str, u32, u32, usize, usize);

/// The columns of a table.
macro_rules! columns {
    ($name:literal, $end:literal, $($column:literal $holds:ident)*) => { [$(($column, Holds::$holds)),*] };
}

/// The statement that makes a table.
macro_rules! statement {
    ($name:literal, $end:literal, $($columns:tt)*) => { declared!(["CREATE TABLE " $name] $end, " (" $($columns)*) };
}

/// The same, column after column: behind what is declared already, and before the end.
macro_rules! declared {
    ([$($text:literal)*] $end:literal, $between:literal) => { concat!($($text,)* $end) };
    ([$($text:literal)*] $end:literal, $between:literal $column:literal Key $($more:tt)*) => {
        declared!([$($text)* $between $column " INTEGER PRIMARY KEY"] $end, ", " $($more)*)
    };
    ([$($text:literal)*] $end:literal, $between:literal $column:literal Text $($more:tt)*) => {
        declared!([$($text)* $between $column " TEXT NOT NULL"] $end, ", " $($more)*)
    };
    ([$($text:literal)*] $end:literal, $between:literal $column:literal Number $($more:tt)*) => {
        declared!([$($text)* $between $column " INTEGER NOT NULL"] $end, ", " $($more)*)
    };
    ([$($text:literal)*] $end:literal, $between:literal $column:literal Amount $($more:tt)*) => {
        declared!([$($text)* $between $column " INTEGER NOT NULL CHECK (" $column " >= 0)"] $end, ", " $($more)*)
    };
    ([$($text:literal)*] $end:literal, $between:literal $column:literal Optional $($more:tt)*) => {
        declared!([$($text)* $between $column " INTEGER"] $end, ", " $($more)*)
    };
}

/// What an account holds of a security.
macro_rules! balance {
    ($form:ident) => {
        $form!("balance", ", PRIMARY KEY (account, isin)) STRICT",
            "account" Text "isin" Text "quantity" Amount)
    };
}

/// What a participant has of a currency.
macro_rules! cash {
    ($form:ident) => {
        $form!("cash", ", PRIMARY KEY (bic, currency)) STRICT",
            "bic" Text "currency" Text "amount" Amount)
    };
}

/// What is outstanding of a security, and paid in of a currency.
macro_rules! total {
    ($form:ident) => {
        $form!("total", ", PRIMARY KEY (subject, code)) STRICT",
            "subject" Text "code" Text "amount" Amount)
    };
}

/// The accepted entries, with their replies.
macro_rules! register {
    ($form:ident) => {
        $form!("register", ", UNIQUE (sender, reference)) STRICT",
            "number" Key "sender" Text "reference" Text "kind" Number "about" Text "bic" Text "account" Text "isin" Text
            "unit" Text "quantity" Number "currency" Text "amount" Number "day" Text "rule" Number "mt" Number
            "settlement" Text "place" Text "previous" Text "status" Number "reply_mt" Optional "reply" Text)
    };
}

/// Where each instruction stands.
macro_rules! state {
    ($form:ident) => {
        $form!("state", ") STRICT",
            "number" Key "mate" Number "state" Number "reason" Number "asked" Number)
    };
}

/// What was sent.
macro_rules! sent {
    ($form:ident) => {
        $form!("sent", ") STRICT",
            "number" Key "bic" Text "mt" Number "about" Number "text" Text)
    };
}

/// The version of these tables.
macro_rules! version {
    ($form:ident) => {
        $form!("version", ") STRICT", "number" Key)
    };
}

const BALANCE: [Column<'static>; 3] = balance!(columns);

const CASH: [Column<'static>; 3] = cash!(columns);

const TOTAL: [Column<'static>; 3] = total!(columns);

const REGISTER: [Column<'static>; 21] = register!(columns);

const STATE: [Column<'static>; 5] = state!(columns);

const SENT: [Column<'static>; 5] = sent!(columns);

const VERSION: [Column<'static>; 1] = version!(columns);

/// The tables, in their order.
pub const TABLES: [Table<'static>; 7] = [
    ("balance", 0, &BALANCE, Some((1, 2))),
    ("cash", 2, &CASH, Some((1, 2))),
    ("total", 4, &TOTAL, Some((1, 2))),
    ("register", 6, &REGISTER, Some((2, 3))),
    ("state", 8, &STATE, None),
    ("sent", 9, &SENT, None),
    ("version", 10, &VERSION, None),
];

/// The indexes of their keys, which SQLite makes with them.
pub const INDEXES: [Index<'static>; 4] = [
    ("sqlite_autoindex_balance_1", 1, 0, 1, 2),
    ("sqlite_autoindex_cash_1", 3, 2, 1, 2),
    ("sqlite_autoindex_total_1", 5, 4, 1, 2),
    ("sqlite_autoindex_register_1", 7, 6, 2, 3),
];

/// The tables of version 1, in their order.
pub const FIRST_TABLES: [Table<'static>; 2] = [
    ("register", 0, &REGISTER, Some((2, 3))),
    ("version", 2, &VERSION, None),
];

/// The index of its key.
pub const FIRST_INDEXES: [Index<'static>; 1] = [("sqlite_autoindex_register_1", 1, 0, 2, 3)];

/// What makes `balance`
pub const MAKES_BALANCE: &str = balance!(statement);

/// What makes `cash`
pub const MAKES_CASH: &str = cash!(statement);

/// What makes `total`
pub const MAKES_TOTAL: &str = total!(statement);

/// What makes `register`
pub const MAKES_REGISTER: &str = register!(statement);

/// What makes `state`
pub const MAKES_STATE: &str = state!(statement);

/// What makes `sent`
pub const MAKES_SENT: &str = sent!(statement);

/// What makes `version`
pub const MAKES_VERSION: &str = version!(statement);
