//! Texts from outside, for the tests.

/// What is sent to the deliverer once it settled.
pub const CONFIRMED_DELIVERY: &str = "\
{4:\r\n\
:16R:GENL\r\n\
:20C::SEME//D000000000000002\r\n\
:23G:NEWM\r\n\
:16R:LINK\r\n\
:20C::RELA//A1\r\n\
:16S:LINK\r\n\
:16S:GENL\r\n\
:16R:TRADDET\r\n\
:98A::ESET//20240229\r\n\
:35B:ISIN DE0007164600\r\n\
:16S:TRADDET\r\n\
:16R:FIAC\r\n\
:36B::ESTT//UNIT/400,\r\n\
:97A::SAFE//A-1\r\n\
:16S:FIAC\r\n\
:16R:SETDET\r\n\
:22F::SETR//TRAD\r\n\
:16R:SETPRTY\r\n\
:95P::REAG//BETADEFF\r\n\
:16S:SETPRTY\r\n\
:16R:SETPRTY\r\n\
:95P::PSET//DESKDEFF\r\n\
:16S:SETPRTY\r\n\
:16R:AMT\r\n\
:19A::ESTT//EUR1000,5\r\n\
:16S:AMT\r\n\
:16S:SETDET\r\n\
-}";

/// The statement of an account with two securities, and the most that it can hold of the second.
pub const STATEMENT: &str = "\
{4:\r\n\
:16R:GENL\r\n\
:28E:1/ONLY\r\n\
:20C::SEME//S000000000000012\r\n\
:23G:NEWM\r\n\
:98A::STAT//20240229\r\n\
:22F::SFRE//ADHO\r\n\
:22F::CODE//COMP\r\n\
:22F::STTY//CUST\r\n\
:22F::STBA//SETT\r\n\
:97A::SAFE//B-1\r\n\
:17B::ACTI//Y\r\n\
:17B::CONS//N\r\n\
:16S:GENL\r\n\
:16R:SUBSAFE\r\n\
:16R:FIN\r\n\
:35B:ISIN DE0007164600\r\n\
:93B::AGGR//UNIT/400,\r\n\
:16S:FIN\r\n\
:16R:FIN\r\n\
:35B:ISIN US0378331005\r\n\
:93B::AGGR//FAMT/99999999999999,\r\n\
:16S:FIN\r\n\
:16S:SUBSAFE\r\n\
-}";
