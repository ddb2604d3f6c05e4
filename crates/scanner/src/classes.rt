// The class of a byte, looked up in a table with an entry for each byte. The program `class_table` prints the constant as it stands here.
// That is why the entries are numbers: document 02, §12, has that program's output as the constant, and it is one of numbers.
ghost use Rattle.std.specs.Prelude.{◌≡◌};
ghost use Rattle.grammar.specs.Token.{class as class_of};
ghost use Rattle.byte_classes.specs.Classes.{class_code};

use byte_classes::classes::Class;

const BLANK: u8 = Class::Blank as u8;

const LETTER: u8 = Class::Letter as u8;

const DIGIT: u8 = Class::Digit as u8;

const UNDERSCORE: u8 = Class::Underscore as u8;

const SIGN: u8 = Class::Sign as u8;

const QUOTE: u8 = Class::Quote as u8;

const OPENING: u8 = Class::Opening as u8;

const CLOSING: u8 = Class::Closing as u8;

const SEMICOLON: u8 = Class::Semicolon as u8;

const OTHER: u8 = Class::Other as u8;

const CLASSES: [u8; 256] = [
    OTHER, // 0
    OTHER, // 1
    OTHER, // 2
    OTHER, // 3
    OTHER, // 4
    OTHER, // 5
    OTHER, // 6
    OTHER, // 7
    OTHER, // 8
    BLANK, // 9
    BLANK, // 10
    OTHER, // 11
    OTHER, // 12
    BLANK, // 13
    OTHER, // 14
    OTHER, // 15
    OTHER, // 16
    OTHER, // 17
    OTHER, // 18
    OTHER, // 19
    OTHER, // 20
    OTHER, // 21
    OTHER, // 22
    OTHER, // 23
    OTHER, // 24
    OTHER, // 25
    OTHER, // 26
    OTHER, // 27
    OTHER, // 28
    OTHER, // 29
    OTHER, // 30
    OTHER, // 31
    BLANK, // 32
    SIGN, // 33
    OTHER, // 34
    SIGN, // 35
    SIGN, // 36
    SIGN, // 37
    SIGN, // 38
    QUOTE, // 39
    OPENING, // 40
    CLOSING, // 41
    SIGN, // 42
    SIGN, // 43
    OTHER, // 44
    SIGN, // 45
    OTHER, // 46
    SIGN, // 47
    DIGIT, // 48
    DIGIT, // 49
    DIGIT, // 50
    DIGIT, // 51
    DIGIT, // 52
    DIGIT, // 53
    DIGIT, // 54
    DIGIT, // 55
    DIGIT, // 56
    DIGIT, // 57
    SIGN, // 58
    SEMICOLON, // 59
    SIGN, // 60
    SIGN, // 61
    SIGN, // 62
    SIGN, // 63
    SIGN, // 64
    LETTER, // 65
    LETTER, // 66
    LETTER, // 67
    LETTER, // 68
    LETTER, // 69
    LETTER, // 70
    LETTER, // 71
    LETTER, // 72
    LETTER, // 73
    LETTER, // 74
    LETTER, // 75
    LETTER, // 76
    LETTER, // 77
    LETTER, // 78
    LETTER, // 79
    LETTER, // 80
    LETTER, // 81
    LETTER, // 82
    LETTER, // 83
    LETTER, // 84
    LETTER, // 85
    LETTER, // 86
    LETTER, // 87
    LETTER, // 88
    LETTER, // 89
    LETTER, // 90
    OTHER, // 91
    OTHER, // 92
    OTHER, // 93
    SIGN, // 94
    UNDERSCORE, // 95
    OTHER, // 96
    LETTER, // 97
    LETTER, // 98
    LETTER, // 99
    LETTER, // 100
    LETTER, // 101
    LETTER, // 102
    LETTER, // 103
    LETTER, // 104
    LETTER, // 105
    LETTER, // 106
    LETTER, // 107
    LETTER, // 108
    LETTER, // 109
    LETTER, // 110
    LETTER, // 111
    LETTER, // 112
    LETTER, // 113
    LETTER, // 114
    LETTER, // 115
    LETTER, // 116
    LETTER, // 117
    LETTER, // 118
    LETTER, // 119
    LETTER, // 120
    LETTER, // 121
    LETTER, // 122
    OTHER, // 123
    SIGN, // 124
    OTHER, // 125
    SIGN, // 126
    OTHER, // 127
    OTHER, // 128
    OTHER, // 129
    OTHER, // 130
    OTHER, // 131
    OTHER, // 132
    OTHER, // 133
    OTHER, // 134
    OTHER, // 135
    OTHER, // 136
    OTHER, // 137
    OTHER, // 138
    OTHER, // 139
    OTHER, // 140
    OTHER, // 141
    OTHER, // 142
    OTHER, // 143
    OTHER, // 144
    OTHER, // 145
    OTHER, // 146
    OTHER, // 147
    OTHER, // 148
    OTHER, // 149
    OTHER, // 150
    OTHER, // 151
    OTHER, // 152
    OTHER, // 153
    OTHER, // 154
    OTHER, // 155
    OTHER, // 156
    OTHER, // 157
    OTHER, // 158
    OTHER, // 159
    OTHER, // 160
    OTHER, // 161
    OTHER, // 162
    OTHER, // 163
    OTHER, // 164
    OTHER, // 165
    OTHER, // 166
    OTHER, // 167
    OTHER, // 168
    OTHER, // 169
    OTHER, // 170
    OTHER, // 171
    OTHER, // 172
    OTHER, // 173
    OTHER, // 174
    OTHER, // 175
    OTHER, // 176
    OTHER, // 177
    OTHER, // 178
    OTHER, // 179
    OTHER, // 180
    OTHER, // 181
    OTHER, // 182
    OTHER, // 183
    OTHER, // 184
    OTHER, // 185
    OTHER, // 186
    OTHER, // 187
    OTHER, // 188
    OTHER, // 189
    OTHER, // 190
    OTHER, // 191
    OTHER, // 192
    OTHER, // 193
    OTHER, // 194
    OTHER, // 195
    OTHER, // 196
    OTHER, // 197
    OTHER, // 198
    OTHER, // 199
    OTHER, // 200
    OTHER, // 201
    OTHER, // 202
    OTHER, // 203
    OTHER, // 204
    OTHER, // 205
    OTHER, // 206
    OTHER, // 207
    OTHER, // 208
    OTHER, // 209
    OTHER, // 210
    OTHER, // 211
    OTHER, // 212
    OTHER, // 213
    OTHER, // 214
    OTHER, // 215
    OTHER, // 216
    OTHER, // 217
    OTHER, // 218
    OTHER, // 219
    OTHER, // 220
    OTHER, // 221
    OTHER, // 222
    OTHER, // 223
    OTHER, // 224
    OTHER, // 225
    OTHER, // 226
    OTHER, // 227
    OTHER, // 228
    OTHER, // 229
    OTHER, // 230
    OTHER, // 231
    OTHER, // 232
    OTHER, // 233
    OTHER, // 234
    OTHER, // 235
    OTHER, // 236
    OTHER, // 237
    OTHER, // 238
    OTHER, // 239
    OTHER, // 240
    OTHER, // 241
    OTHER, // 242
    OTHER, // 243
    OTHER, // 244
    OTHER, // 245
    OTHER, // 246
    OTHER, // 247
    OTHER, // 248
    OTHER, // 249
    OTHER, // 250
    OTHER, // 251
    OTHER, // 252
    OTHER, // 253
    OTHER, // 254
    OTHER, // 255
];

// The constant in one place of memory, where it is read.
static TABLE: [u8; 256] = CLASSES;

// The class of a byte. No entry is another number, and that the last arm is not reached saves a test of the entry at each byte.
pub fn class(b: u8) -> Class
    ensures { class_code result ≡ class_of b }
{
    match TABLE[b as usize] {
        BLANK => Class::Blank,
        LETTER => Class::Letter,
        DIGIT => Class::Digit,
        UNDERSCORE => Class::Underscore,
        SIGN => Class::Sign,
        QUOTE => Class::Quote,
        OPENING => Class::Opening,
        CLOSING => Class::Closing,
        SEMICOLON => Class::Semicolon,
        OTHER => Class::Other,
        _ => unreachable!(),
    }
}
