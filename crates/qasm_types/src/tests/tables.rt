// The tables of casts and of operators as texts, a row on each line, and the operands at which the code is compared with them.

/// What is compared, each with each: all types of one bit and of few, those about 32 and 64 bits, and whole constants about the
/// bounds of words.
pub(super) const OPERANDS: &str = "bool bit turn pi
bits:0 bits:1 bits:2 bits:3 bits:4 bits:31 bits:32 bits:33 bits:63 bits:64 bits:65
int:1 int:2 int:3 int:4 int:31 int:32 int:33 int:63 int:64
uint:1 uint:2 uint:3 uint:4 uint:31 uint:32 uint:33 uint:63 uint:64
angle:1 angle:2 angle:3 angle:4 angle:31 angle:32
0 1 -1 -2 2 7 -8 15 16 2147483648 4294967296 -2147483649
9223372036854775807 9223372036854775808 18446744073709551615 -9223372036854775808";

/// All operators on two operands.
pub(super) const SYMBOLS: &str = "+ - * / % << >> & | ^ == != < <= > >= && || **";

/// All operators on one operand.
pub(super) const UNARY_SYMBOLS: &str = "! ~ -";

/// What is cast, to what, and what must hold of the widths or of the constant. Each type is cast to itself as well.
pub(super) const CAST_ROWS: &str = "truth truth;
truth word;
word bool;
word word;
word bits;same
word bit;one
bits word;small
bits bool;
bits angle;same
angle bits;same
angle angle;
angle bool;
whole word;
whole bool;
whole bits;small pattern
whole bit;pattern
whole angle;
pi angle;";

/// Operators, their operands, what must hold of the widths, and where the operands are taken and what the result is.
pub(super) const OPERATOR_ROWS: &str = "+ - * / % & | ^;word number;;meet meet meet
+ - * / % & | ^;whole word;;meet meet meet
+ - * / % & | ^ **;whole whole;;whole whole whole
+ -;angle angle;same;left left left
+ -;angle pi;;left left left
+ -;pi angle;;right right right
+ -;turn turn;;turn turn turn
+ -;turn pi;;turn turn turn
+ -;pi turn;;turn turn turn
+ -;pi pi;;pi pi pi
* /;angle number;;left right left
* /;turn whole;;left right left
* /;pi whole;;left right left
*;number angle;;left right right
*;whole turn;;left right right
*;whole pi;;left right right
<< >>;word number;;left right left
<< >>;bits number;;left right left
<< >>;angle number;;left right left
<< >>;whole word;;beside right beside
<< >>;whole whole;;whole whole whole
& | ^;bits bits;same;left left left
& | ^;truth truth;;bit bit bit
& | ^;truth number;;meet meet meet
& | ^;number truth;;meet meet meet
== != < <= > >=;word number;;meet meet bool
== != < <= > >=;whole word;;meet meet bool
== != < <= > >=;angle angle;same;left left bool
== != < <= > >=;angle pi;;left left bool
== != < <= > >=;pi angle;;right right bool
== != < <= > >=;whole whole;;whole whole bool
== != < <= > >=;pi pi;;pi pi bool
== != < <= > >=;truth number;;meet meet bool
== != < <= > >=;number truth;;meet meet bool
== != < <= > >=;bits number;small;meet meet bool
== != < <= > >=;number bits;small;meet meet bool
== !=;truth truth;;bit bit bool
== !=;bits bits;same;left left bool
< <= > >=;bits bits;same small;uint uint bool
&& ||;condition condition;;bool bool bool";

/// Operators, the operand, and the result.
pub(super) const UNARY_ROWS: &str = "!;condition;bool
~;word;left
~;bit;left
~;bits;left
~;whole;left
-;word;left
-;angle;left
-;turn;left
-;whole;left
-;pi;left";
