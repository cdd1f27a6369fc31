// The table of 256 entries: of which classes each byte is (02, ticket [5]).
//
// The table is a `match` that names each byte, which is compiled to a constant table that is read in place; an array would be stored to the
// stack in each call. Bytes with one entry share an arm, the even ones and the odd ones apart: bytes of one arm that stand next to each other
// would be compiled to comparisons. So that the table is compiled into the loop over a run, `entry` is called at one place alone, in `passes` of the test `Of`.
ghost use Rattle.std.specs.Prelude.{◌≡◌};
ghost use Rattle.lexis_table.specs.Table.{entry_of};

// The entry of a byte: the binary digits of the classes that it is of.
pub fn entry(b: u8) -> u16
    ensures { result ≡ entry_of b }
{
    match b {
        0 | 2 | 4 | 6 | 8 | 10 | 12 | 14 | 16 | 18 | 20 | 22 | 24 | 26 | 28 | 30 => 0x0000,
        1 | 3 | 5 | 7 | 11 | 15 | 17 | 19 | 21 | 23 | 25 | 27 | 29 | 31 | 127 => 0x0000,
        9 | 32 => 0x19c3,
        13 => 0x0802,
        b'$' | b'&' | b'*' | b'.' | b'^' | b'`' | b'|' | b'~' => 0x17e0,
        b'!' | b'#' | b'%' | b'\'' | b'+' | b'_' | b'{' | b'}' => 0x17e0,
        b'"' => 0x1780,
        b'(' => 0x1f42,
        b')' => 0x1740,
        b',' | b'<' | b'>' | b'@' => 0x17c0,
        b'/' | b'=' | b'?' | b'[' | b']' => 0x17c0,
        b'B'
        | b'D'
        | b'F'
        | b'H'
        | b'J'
        | b'L'
        | b'N'
        | b'P'
        | b'R'
        | b'T'
        | b'V'
        | b'X'
        | b'Z'
        | b'b'
        | b'd'
        | b'f'
        | b'h'
        | b'j'
        | b'l'
        | b'n'
        | b'p'
        | b'r'
        | b't'
        | b'v'
        | b'x'
        | b'z' => 0x17f0,
        b'-'
        | b'A'
        | b'C'
        | b'E'
        | b'G'
        | b'I'
        | b'K'
        | b'M'
        | b'O'
        | b'Q'
        | b'S'
        | b'U'
        | b'W'
        | b'Y'
        | b'a'
        | b'c'
        | b'e'
        | b'g'
        | b'i'
        | b'k'
        | b'm'
        | b'o'
        | b'q'
        | b's'
        | b'u'
        | b'w'
        | b'y' => 0x17f0,
        b'0' => 0x17fc,
        b'2' | b'4' | b'6' | b'8' => 0x17f8,
        b'1' | b'3' | b'5' | b'7' | b'9' => 0x17f8,
        b':' => 0x15c0,
        b';' => 0x0fc0,
        b'\\' => 0x1700,
        128
        | 130
        | 132
        | 134
        | 136
        | 138
        | 140
        | 142
        | 144
        | 146
        | 148
        | 150
        | 152
        | 154
        | 156
        | 158
        | 160
        | 162
        | 164
        | 166
        | 168
        | 170
        | 172
        | 174
        | 176
        | 178
        | 180
        | 182
        | 184
        | 186
        | 188
        | 190
        | 192
        | 194
        | 196
        | 198
        | 200
        | 202
        | 204
        | 206
        | 208
        | 210
        | 212
        | 214
        | 216
        | 218
        | 220
        | 222
        | 224
        | 226
        | 228
        | 230
        | 232
        | 234
        | 236
        | 238
        | 240
        | 242
        | 244
        | 246
        | 248
        | 250
        | 252
        | 254 => 0x10c0,
        129
        | 131
        | 133
        | 135
        | 137
        | 139
        | 141
        | 143
        | 145
        | 147
        | 149
        | 151
        | 153
        | 155
        | 157
        | 159
        | 161
        | 163
        | 165
        | 167
        | 169
        | 171
        | 173
        | 175
        | 177
        | 179
        | 181
        | 183
        | 185
        | 187
        | 189
        | 191
        | 193
        | 195
        | 197
        | 199
        | 201
        | 203
        | 205
        | 207
        | 209
        | 211
        | 213
        | 215
        | 217
        | 219
        | 221
        | 223
        | 225
        | 227
        | 229
        | 231
        | 233
        | 235
        | 237
        | 239
        | 241
        | 243
        | 245
        | 247
        | 249
        | 251
        | 253 => 0x10c0,
        _ => 0x10c0,
    }
}
