// What is wrong at a place of a text, in a few words, and the end of the line.
ghost use Rattle.std.specs.Prelude.{◌≤◌, length};

use classes::Class;
use tokens::Token;

// The rule that a malformed token breaks, by the class of its first byte.
fn broken_rule(class: Class) -> &'static str {
    match class {
        Class::Slash => "a comment begins with /* and must end with */\n",
        Class::Capital => "a name has at most 15 characters\n",
        Class::Typed =>
            "a variable has a dot and an index of at most 15 characters, or one digit or capital\n",
        Class::Digit => "a number is at most 4294967295, with no fraction and no exponent\n",
        Class::Quote => "a string must end on its line, after at most 255 characters\n",
        Class::Call => "the function's name must follow < at once\n",
        Class::Star => "a star begins a comment in the first column alone\n",
        _ => "no token begins like this\n",
    }
}

// A token is bad by itself, or where it stands.
pub fn wrong(text: &[u8], place: usize) -> &'static str
    requires { place ≤ length text.now }
{
    let Some(first) = text.get(place) else {
        return "the text ends early\n";
    };
    match tokens::lex(text, place).token {
        Token::Malformed => broken_rule(classes::class_of(*first)),
        _ => "this token cannot stand here, or passes a limit\n",
    }
}
